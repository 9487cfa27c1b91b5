//! The parts of a statement's text.

ghost use Rattle.std.specs.Prelude.{◌≡◌, ◌≤◌, length, take, drop, Some, None, MatchOption};
ghost use Rattle.std.specs.List.{list_all};
ghost use Rattle.isa_asm.specs.Seen.{halves_seen};
ghost use Rattle.isa_asm.specs.Lexing.{before_blank, begins_name as begins_name_lem, behind_word, first_word, from_blank, halves, is_all_blank, is_between as is_between_lem, is_blank as is_blank_lem, is_digit as is_digit_lem, is_name as is_name_lem, is_of_name as is_of_name_lem, only_word, without_front};

/// A space or a tab.
pub fn is_blank(byte: u8) -> bool
    ensures { result ≡ is_blank_lem byte }
{
    byte == b' ' || byte == b'\t'
}

pub fn is_between(low: u8, high: u8, byte: u8) -> bool
    ensures { result ≡ is_between_lem low high byte }
{
    low <= byte && byte <= high
}

pub fn is_digit(byte: u8) -> bool
    ensures { result ≡ is_digit_lem byte }
{
    is_between(b'0', b'9', byte)
}

/// A letter of either case, or `_`.
pub fn begins_name(byte: u8) -> bool
    ensures { result ≡ begins_name_lem byte }
{
    is_between(b'a', b'z', byte) || is_between(b'A', b'Z', byte) || byte == b'_'
}

/// A byte of a name behind its first one.
pub fn is_of_name(byte: u8) -> bool
    ensures { result ≡ is_of_name_lem byte }
{
    begins_name(byte) || is_digit(byte)
}

/// Whether a text is a name: letters, digits and `_`, not first a digit.
pub fn is_name(text: &[u8]) -> bool
    ensures { result ≡ is_name_lem text.now }
{
    match text {
        [] => false,
        [first, rest @ ..] => begins_name(*first) && goes_on(rest),
    }
}

/// Whether a name may go on so.
fn goes_on(text: &[u8]) -> bool
    ensures { result ≡ list_all is_of_name_lem text.now }
{
    text.iter().all(|byte| is_of_name(*byte))
}

pub fn is_all_blank(text: &[u8]) -> bool
    ensures { result ≡ is_all_blank text.now }
{
    text.iter().all(|byte| is_blank(*byte))
}

/// The text without the blanks in front.
#[tactic(auto, unfolding(crate::specs::Lexing::without_front))]
pub fn without_front(text: &[u8]) -> &[u8]
    ensures { result.now ≡ without_front text.now }
{
    for (place, byte) in text.iter().enumerate() {
        if !is_blank(*byte) {
            return &text[place..];
        }
    }
    &[]
}

/// The place of the first blank, or the end.
#[tactic(auto, unfolding(crate::specs::Lexing::before_blank, crate::specs::Lexing::from_blank))]
fn word_end(text: &[u8]) -> usize
    ensures within { result ≤ length text.now }
    ensures before { take result text.now ≡ before_blank text.now }
    ensures behind { drop result text.now ≡ from_blank text.now }
{
    for (place, byte) in text.iter().enumerate() {
        if is_blank(*byte) {
            return place;
        }
    }
    text.len()
}

/// The first word of a text, and what stands behind it.
#[tactic(auto, unfolding(crate::specs::Lexing::first_word, crate::specs::Lexing::behind_word))]
pub fn split_word(text: &[u8]) -> (&[u8], &[u8])
    ensures word { result.0.now ≡ first_word text.now }
    ensures rest { result.1.now ≡ behind_word text.now }
{
    let text = without_front(text);
    let end = word_end(text);
    (&text[..end], &text[end..])
}

/// The one word of a text, if there is no other. It may be empty.
#[tactic(auto, unfolding(crate::specs::Lexing::only_word))]
pub fn only_word(text: &[u8]) -> Option<&[u8]>
    ensures { MatchOption result (only_word text.now ≡ None) (λ word. only_word text.now ≡ Some word.now) }
{
    let (word, rest) = split_word(text);
    if is_all_blank(rest) { Some(word) } else { None }
}

/// What a byte cuts a text into, if it stands there.
#[derive(Clone, Copy)]
pub struct Halves<'a> {
    pub before: &'a [u8],
    pub behind: &'a [u8],
}

/// The text before the first such byte, and behind it, if there is one.
#[tactic(auto, unfolding(crate::specs::Lexing::halves))]
pub fn cut_at(at: u8, text: &[u8]) -> Option<Halves<'_>>
    ensures { MatchOption result (halves at text.now ≡ None) (λ found. halves at text.now ≡ Some (halves_seen found)) }
{
    for (place, byte) in text.iter().enumerate() {
        if *byte == at {
            return Some(Halves {
                before: &text[..place],
                behind: &text[place + 1..],
            });
        }
    }
    None
}
