ghost use Rattle.std.specs.Prelude.{◌≡◌, ◌<◌, ◌==◌, not, [], ◌∷◌, length, position, MatchOption};
ghost use Rattle.std.specs.List.{position_or_len};
ghost use Rattle.file_tree.specs.Paths.{names, ends_in_slash as ends, is_dot as dot_is, is_dots as dots_is, path_refused};
ghost use Rattle.file_tree.specs.Making.{is_own as own_is};
ghost use Rattle.file_tree.specs.Walk.{start_of};

use crate::errno::Errno;

/// The most bytes that a path may have.
const PATH_LIMIT: usize = 4095;

/// The first name of a path, and what stands behind it.
pub(crate) fn first_name(path: &[u8]) -> Option<(&[u8], &[u8])>
    ensures { MatchOption result (names path.now ≡ []) (λ cut. (names path.now ≡ cut.0.now ∷ names cut.1.now) × (length cut.1.now < length path.now)) }
{
    match name_start(path) {
        Some(start) => {
            let rest = &path[start..];
            Some(rest.split_at(name_length(rest)))
        }
        None => None,
    }
}

/// Where the first name of a path begins.
fn name_start(path: &[u8]) -> Option<usize>
    ensures { result ≡ position (λ byte. not (byte == 47)) path.now }
{
    path.iter().position(|byte| *byte != b'/')
}

/// How many bytes stand before the first slash.
fn name_length(path: &[u8]) -> usize
    ensures { result ≡ position_or_len (λ byte. byte == 47) path.now }
{
    match first_slash(path) {
        Some(slash) => slash,
        None => path.len(),
    }
}

/// Where the first slash stands.
fn first_slash(path: &[u8]) -> Option<usize>
    ensures { result ≡ position (λ byte. byte == 47) path.now }
{
    path.iter().position(|byte| *byte == b'/')
}

/// Why a path is refused before all else: it is empty, or too long.
#[tactic(auto, unfolding(crate::specs::Paths::path_refused))]
pub(crate) fn path_refusal(path: &[u8]) -> Option<Errno>
    ensures { result ≡ path_refused path.now }
{
    if path.is_empty() {
        return Some(Errno::ENOENT);
    }
    if path.len() > PATH_LIMIT {
        return Some(Errno::ENAMETOOLONG);
    }
    None
}

/// Where a path begins: at the root, or at the directory that is given.
pub(crate) fn start(from: u64, path: &[u8]) -> u64
    ensures { result ≡ start_of from path.now }
{
    match path {
        [b'/', ..] => 1,
        _ => from,
    }
}

/// Whether a path ends in a slash.
pub(crate) fn ends_in_slash(path: &[u8]) -> bool
    ensures { result ≡ ends path.now }
{
    match path {
        [.., last] => *last == b'/',
        [] => false,
    }
}

/// Whether a name is `.`.
pub(crate) fn is_dot(name: &[u8]) -> bool
    ensures { result ≡ dot_is name.now }
{
    match name {
        [only] => *only == b'.',
        _ => false,
    }
}

/// Whether a name is `..`.
pub(crate) fn is_dots(name: &[u8]) -> bool
    ensures { result ≡ dots_is name.now }
{
    match name {
        [first, second] => *first == b'.' && *second == b'.',
        _ => false,
    }
}

/// Whether a name begins with `rv-`, as those of this program's own files do.
pub(crate) fn is_own(name: &[u8]) -> bool
    ensures { result ≡ own_is name.now }
{
    match name {
        [first, second, third, ..] => *first == b'r' && *second == b'v' && *third == b'-',
        _ => false,
    }
}
