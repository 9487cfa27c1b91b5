//! Whether entries are the listing of a folder.

ghost use Rattle.std.specs.Prelude.{◌≡◌, ◌↔◌, ◌<◌, ◌≢◌, ℕ, None, IsTrue, IfSome, length, slice_index};
ghost use Rattle.std.specs.List.{All, AllPass, list_all};
ghost use Rattle.std.specs.List.Sorted.{IsBinarySearchResult, IsSearchInRange, IsStrictlySortedBy};
ghost use Rattle.std.specs.Ordering.{nat_cmp};
ghost use Rattle.std.specs.Cmp.Lexicographic.{slice_cmp};
ghost use Rattle.file_tree.specs.Paths.{pieces, is_dot as dot_is, is_dots as dots_is};
ghost use Rattle.image_store.specs.Listing.{HasDir, IsHoused, IsHousedAt, IsListing, is_name as name_is, is_path as path_is, paths_of};

use crate::folder::{Kind, Listed};
use file_tree::Text;
use std::cmp::Ordering;

/// The most bytes that a name may have.
const NAME_LIMIT: usize = 255;

/// The most bytes that a path may have.
const PATH_LIMIT: usize = 4095;

/// Whether the entries are a listing. Its cost is in the bytes of the paths, times the logarithm of their number.
pub fn is_listing(listing: &[Listed]) -> bool
    ensures { IsTrue result ↔ IsListing listing.now }
{
    are_paths(listing) && are_rising(listing) && are_housed(listing)
}

/// Whether each path is one.
fn are_paths(listing: &[Listed]) -> bool
    ensures { IsTrue result ↔ AllPass (λ entry. path_is entry.path) listing.now }
{
    for listed in listing {
        if !is_path(listed.path.as_str()) {
            return false;
        }
    }
    true
}

/// Whether the paths rise by their bytes.
fn are_rising(listing: &[Listed]) -> bool
    ensures { IsTrue result ↔ IsStrictlySortedBy (slice_cmp nat_cmp) (paths_of listing.now) }
{
    for place in 1..listing.len() {
        if !is_below(
            listing[place - 1].path.as_str(),
            listing[place].path.as_str(),
        ) {
            return false;
        }
    }
    true
}

/// Whether a path stands before another.
fn is_below(path: &str, other: &str) -> bool
    ensures { IsTrue result ↔ (slice_cmp nat_cmp path.now other.now ≡ Ordering.Less) }
{
    path.as_bytes().cmp(other.as_bytes()) == Ordering::Less
}

/// Whether the directory of each entry is listed, where the paths rise.
fn are_housed(listing: &[Listed]) -> bool
    requires { IsStrictlySortedBy (slice_cmp nat_cmp) (paths_of listing.now) }
    ensures { IsTrue result ↔ All (λ entry. IsHoused listing.now entry.path) listing.now }
{
    for listed in listing {
        if !is_housed(listing, listed.path.as_str().as_bytes()) {
            return false;
        }
    }
    true
}

/// Whether the directory in which a path stands is listed, or is the folder itself.
fn is_housed(listing: &[Listed], path: &[u8]) -> bool
    requires { IsStrictlySortedBy (slice_cmp nat_cmp) (paths_of listing.now) }
    ensures { IsTrue result ↔ IsHousedAt listing.now path.now }
{
    match last_slash(path) {
        Some(slash) => has_dir(listing, &path[..slash]),
        None => true,
    }
}

/// Where the last slash of a path stands.
pub(crate) fn last_slash(path: &[u8]) -> Option<usize>
    ensures within { IfSome result (λ slash. slash < length path.now) }
    ensures found { IfSome result (λ slash. slice_index path.now slash ≡ 47) }
    ensures last { IfSome result (λ slash. (place : ℕ) → slash < place → place < length path.now → slice_index path.now place ≢ 47) }
    ensures none { result ≡ None → (place : ℕ) → place < length path.now → slice_index path.now place ≢ 47 }
{
    let mut end = path.len();
    while end > 0 {
        if path[end - 1] == b'/' {
            return Some(end - 1);
        }
        end -= 1;
    }
    None
}

/// Whether a directory stands at the path.
fn has_dir(listing: &[Listed], path: &[u8]) -> bool
    requires { IsStrictlySortedBy (slice_cmp nat_cmp) (paths_of listing.now) }
    ensures { IsTrue result ↔ HasDir listing.now path.now }
{
    match place_of(listing, path) {
        Ok(place) => is_dir(&listing[place]),
        Err(_) => false,
    }
}

/// Whether an entry is a directory.
fn is_dir(listed: &Listed) -> bool
    ensures { IsTrue result ↔ (listed.now.kind ≡ Kind.Dir) }
{
    match listed.kind {
        Kind::Dir => true,
        Kind::File => false,
        Kind::Other => false,
    }
}

/// Where a path stands among those that rise.
fn place_of(listing: &[Listed], path: &[u8]) -> Result<usize, usize>
    ensures bound { IsSearchInRange result (length listing.now) }
    ensures position { IsBinarySearchResult (λ entry. slice_cmp nat_cmp entry.path path.now) listing.now result }
{
    listing.binary_search_by(|entry| order(&entry.path, path))
}

/// The order of a path and another, by their bytes.
pub(crate) fn order(path: &Text, other: &[u8]) -> Ordering
    ensures { result ≡ slice_cmp nat_cmp path.now other.now }
{
    path.as_str().as_bytes().cmp(other)
}

/// Whether an entry may have the path.
#[tactic(auto, unfolding(crate::specs::Listing::is_path))]
pub(crate) fn is_path(path: &str) -> bool
    ensures { result ≡ path_is path.now }
{
    path.len() <= PATH_LIMIT && are_names(path)
}

/// Whether an entry may have each name that stands between the slashes of a path.
fn are_names(path: &str) -> bool
    ensures { result ≡ list_all name_is (pieces path.now) }
{
    path.split('/').all(|name| is_name(name.as_bytes()))
}

/// Whether an entry may have the name.
#[tactic(auto, unfolding(crate::specs::Listing::is_name))]
fn is_name(name: &[u8]) -> bool
    ensures { result ≡ name_is name.now }
{
    !name.is_empty()
        && !is_dot(name)
        && !is_dots(name)
        && name.len() <= NAME_LIMIT
        && !name.contains(&0)
}

fn is_dot(name: &[u8]) -> bool
    ensures { result ≡ dot_is name.now }
{
    match name {
        [only] => *only == b'.',
        _ => false,
    }
}

fn is_dots(name: &[u8]) -> bool
    ensures { result ≡ dots_is name.now }
{
    match name {
        [first, second] => *first == b'.' && *second == b'.',
        _ => false,
    }
}
