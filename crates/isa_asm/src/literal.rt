//! Numbers as they are written.

ghost use Rattle.std.specs.Prelude.{◌≡◌, ◌+◌, ◌*◌, ◌<◌, true};
ghost use Rattle.std.specs.List.{list_all};
ghost use Rattle.isa_asm.specs.Literals.{behind_zero, digit_value, digits_of, digits_value, is_digit_of, literal, magnitude, signed_literal, some_digits, with_next, within};

use crate::lexing::{is_between, is_digit};

/// A number as it is written.
#[derive(Clone, Copy, Debug, PartialEq, Eq)]
pub struct Literal {
    /// A `-` stands in front.
    pub negative: bool,
    /// None of more than 128 bits.
    pub magnitude: Option<u128>,
}

/// The number that a word spells, if it is one.
#[tactic(auto, unfolding(crate::specs::Literals::literal))]
pub fn read_literal(word: &[u8]) -> Option<Literal>
    ensures { result ≡ literal word.now }
{
    match word {
        [] => None,
        [b'-', rest @ ..] => signed_literal(true, rest),
        [_, ..] => signed_literal(false, word),
    }
}

#[tactic(auto, unfolding(crate::specs::Literals::signed_literal))]
fn signed_literal(negative: bool, word: &[u8]) -> Option<Literal>
    ensures { result ≡ signed_literal negative word.now }
{
    match magnitude(word) {
        Some(magnitude) => Some(Literal {
            negative,
            magnitude,
        }),
        None => None,
    }
}

/// The number without its sign.
#[tactic(auto, unfolding(crate::specs::Literals::magnitude))]
fn magnitude(word: &[u8]) -> Option<Option<u128>>
    ensures { result ≡ magnitude word.now }
{
    match word {
        [] => None,
        [b'0', rest @ ..] => behind_zero(rest),
        [_, ..] => digits_of(10, word),
    }
}

/// What follows a zero in front.
#[tactic(auto, unfolding(crate::specs::Literals::behind_zero))]
fn behind_zero(rest: &[u8]) -> Option<Option<u128>>
    ensures { result ≡ behind_zero rest.now }
{
    match rest {
        [] => Some(Some(0)),
        [b'x', digits @ ..] => some_digits(16, digits),
        [_, ..] => None,
    }
}

#[tactic(auto, unfolding(crate::specs::Literals::some_digits))]
fn some_digits(base: u128, digits: &[u8]) -> Option<Option<u128>>
    requires small { base < 17 }
    requires positive { 0 < base }
    ensures { result ≡ some_digits base digits.now }
{
    match digits {
        [] => None,
        [_, ..] => digits_of(base, digits),
    }
}

#[tactic(auto, unfolding(crate::specs::Literals::digits_of))]
fn digits_of(base: u128, digits: &[u8]) -> Option<Option<u128>>
    requires small { base < 17 }
    requires positive { 0 < base }
    ensures { result ≡ digits_of base digits.now }
{
    if are_digits(base, digits) {
        Some(value_of(base, digits))
    } else {
        None
    }
}

fn are_digits(base: u128, digits: &[u8]) -> bool
    ensures { result ≡ list_all (is_digit_of base) digits.now }
{
    digits.iter().all(|digit| is_digit_of(base, *digit))
}

fn is_digit_of(base: u128, byte: u8) -> bool
    ensures { result ≡ is_digit_of base byte }
{
    is_digit(byte) || (base == 16 && (is_between(b'a', b'f', byte) || is_between(b'A', b'F', byte)))
}

/// What the digits stand for, where it has at most 128 bits.
#[tactic(auto, using(crate::proofs::LiteralFacts::value_goes_on), unfolding(crate::specs::Literals::digits_value))]
fn value_of(base: u128, digits: &[u8]) -> Option<u128>
    requires small { base < 17 }
    requires positive { 0 < base }
    requires digits { list_all (is_digit_of base) digits.now ≡ true }
    ensures { result ≡ within (digits_value base digits.now) }
{
    let mut value = Some(0);
    for digit in digits {
        value = with_next(base, value, *digit);
    }
    value
}

fn with_next(base: u128, value: Option<u128>, digit: u8) -> Option<u128>
    requires { base < 17 }
    ensures { result ≡ with_next base value digit }
{
    match value {
        Some(front) => with_digit(base, front, digit),
        None => None,
    }
}

/// The number with one more digit behind it.
fn with_digit(base: u128, front: u128, digit: u8) -> Option<u128>
    requires base { base < 17 }
    ensures { result ≡ within (front * base + digit_value digit) }
{
    let product = front.checked_mul(base)?;
    product.checked_add(digit_value(digit))
}

#[tactic(auto, unfolding(crate::specs::Literals::digit_value))]
fn digit_value(byte: u8) -> u128
    ensures { result ≡ digit_value byte }
{
    let digit = if byte < b':' {
        byte.saturating_sub(b'0')
    } else if byte < b'a' {
        byte - 55
    } else {
        byte - 87
    };
    u128::from(digit)
}
