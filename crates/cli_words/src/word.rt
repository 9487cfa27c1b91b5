//! One word.

ghost use Rattle.std.specs.Prelude.{◌≡◌, ◌≢◌, ◌≤◌, ℕ, IsTrue, ◌↔◌, [], ◌∷◌, length, map, MatchOption, slice_index};
ghost use Rattle.std.specs.String.{string_bytes};
ghost use Rattle.std.specs.Fmt.{decimal};
ghost use Rattle.cli_words.specs.Words.{is_value as value_word, is_part as path_part, is_path as path_word, is_entry as entry_word, is_file as file_word, is_name as name_word};

/// The greatest budget.
const MOST: u32 = 33_554_432;

/// The first of some words, and those behind it.
#[derive(Clone, Copy)]
pub struct Front<'a> {
    pub word: &'a str,
    pub rest: &'a [String],
}

/// Takes the first word off.
pub fn split(words: &[String]) -> Option<Front<'_>>
    ensures { MatchOption result (map string_bytes words.now ≡ [])
        (λ split. map string_bytes words.now ≡ split.word.now ∷ map string_bytes split.rest.now) }
{
    match words {
        [] => None,
        [word, rest @ ..] => Some(Front {
            word: word.as_str(),
            rest,
        }),
    }
}

/// Whether two texts are the same.
pub fn is_same(one: &str, other: &str) -> bool
    ensures { IsTrue result ↔ (one.now ≡ other.now) }
{
    one == other
}

/// Whether a word can be a value: it is not empty, and has no dash in front.
pub fn is_value(word: &str) -> bool
    ensures { result ≡ value_word word.now }
{
    match word.as_bytes() {
        [] => false,
        [first, ..] => *first != b'-',
    }
}

/// Whether a word is an entry `K=V` of the environment: a value that has an `=`, and none in front.
pub fn is_entry(word: &str) -> bool
    ensures { result ≡ entry_word word.now }
{
    match word.as_bytes() {
        [] => false,
        [first, rest @ ..] => *first != b'-' && *first != b'=' && rest.contains(&b'='),
    }
}

/// Whether a word names a file of the tree: a value that is a path.
pub fn is_file(word: &str) -> bool
    ensures { result ≡ file_word word.now }
{
    is_value(word) && is_path(word)
}

/// Whether a word names a file that stands in no folder: a value that is neither `.` nor `..`, with no slash.
pub fn is_name(word: &str) -> bool
    ensures { result ≡ name_word word.now }
{
    is_value(word) && is_part(word.as_bytes()) && !word.as_bytes().contains(&b'/')
}

/// The budget that a word spells: decimal digits, with no zero in front of others, up to 33554432.
pub fn read_budget(word: &str) -> Option<u32>
    ensures { MatchOption result ((budget : ℕ) → budget ≤ 33554432 → word.now ≡ decimal budget → ⊥)
        (λ budget. (budget ≤ 33554432) × (word.now ≡ decimal budget)) }
{
    if !has_plain_front(word.as_bytes()) {
        return None;
    }
    let Ok(budget) = word.parse::<u32>() else {
        return None;
    };
    if budget > MOST {
        return None;
    }
    Some(budget)
}

/// Whether no plus stands in front, and no zero in front of more.
fn has_plain_front(bytes: &[u8]) -> bool
    ensures { IsTrue result ↔ ((slice_index bytes.now 0 ≢ 43) × (slice_index bytes.now 0 ≡ 48 → length bytes.now ≡ 1)) }
{
    match bytes {
        [] => true,
        [only] => *only != b'+',
        [first, _, ..] => *first != b'+' && *first != b'0',
    }
}

/// Whether a word is a path: parts with `/` between them, none of them empty, `.` or `..`.
fn is_path(word: &str) -> bool
    ensures { result ≡ path_word word.now }
{
    has_parts(word.as_bytes())
}

#[tactic(auto, using(crate::proofs::PartFacts::slash_step, crate::proofs::PartFacts::other_step))]
fn has_parts(bytes: &[u8]) -> bool
    ensures { result ≡ path_word bytes.now }
{
    let mut start = 0;
    for (place, byte) in bytes.iter().enumerate() {
        if *byte == b'/' {
            if !is_part(&bytes[start..place]) {
                return false;
            }
            start = place + 1;
        }
    }
    is_part(&bytes[start..])
}

fn is_part(part: &[u8]) -> bool
    ensures { result ≡ path_part part.now }
{
    match part {
        [] => false,
        [only] => *only != b'.',
        [first, second] => !(*first == b'.' && *second == b'.'),
        [_, _, _, ..] => true,
    }
}
