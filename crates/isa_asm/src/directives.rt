//! What directives mean with their operands.

ghost use Rattle.std.specs.Prelude.{◌≡◌, ◌≤◌, ◌<◌, ◌^◌, length, Some, None, false, MatchOption};
ghost use Rattle.std.specs.Option.{option_map};
ghost use Rattle.isa_asm.specs.Seen.{Means, target_seen};
ghost use Rattle.isa_asm.specs.Statement.{ascii, behind_mark, doubleword, doubleword_of, escape, half_of, number_of, numbers, quoted_bytes, space};

use crate::cause::AsmCause;
use crate::lexing::{is_all_blank, without_front};
use crate::literal::Literal;
use crate::meaning::Meaning;
use crate::numbers::{natural, stored};
use crate::operands::{Target, number, read_target};
use isa_decode::Width;

/// Half of the range of a number of these bytes.
fn half_of(width: Width) -> u128
    ensures value { result ≡ half_of width }
    ensures small { result ≤ 2 ^ 63 }
    ensures positive { 0 < result }
{
    match width {
        Width::One => 1 << 7,
        Width::Two => 1 << 15,
        Width::Four => 1 << 31,
        Width::Eight => 1 << 63,
    }
}

#[tactic(auto, unfolding(crate::specs::Statement::number_of))]
fn number_of<'a>(width: Width, literal: Literal) -> Result<Meaning<'a>, AsmCause>
    ensures { Means result (number_of width literal) }
{
    match stored(half_of(width), literal) {
        Some(value) => Ok(Meaning::Number(width, value)),
        None => Err(AsmCause::Range),
    }
}

#[tactic(auto, unfolding(crate::specs::Statement::numbers))]
pub fn numbers<'a>(width: Width, text: &'a [u8]) -> Result<Meaning<'a>, AsmCause>
    ensures { Means result (numbers width text.now) }
{
    match number(text) {
        Some(literal) => number_of(width, literal),
        None => Err(AsmCause::Operand),
    }
}

#[tactic(auto, unfolding(crate::specs::Statement::doubleword_of))]
fn doubleword_of(target: Target<'_>) -> Result<Meaning<'_>, AsmCause>
    ensures { Means result (doubleword_of (target_seen target.entry)) }
{
    match target {
        Target::Offset(literal) => number_of(Width::Eight, literal),
        Target::Label(name) => Ok(Meaning::Pointer(name)),
    }
}

#[tactic(auto, unfolding(crate::specs::Statement::doubleword))]
pub fn doubleword(text: &[u8]) -> Result<Meaning<'_>, AsmCause>
    ensures { Means result (doubleword text.now) }
{
    match read_target(text) {
        Some(target) => doubleword_of(target),
        None => Err(AsmCause::Operand),
    }
}

#[tactic(auto, unfolding(crate::specs::Statement::space))]
pub fn space(text: &[u8]) -> Result<Meaning<'_>, AsmCause>
    ensures { Means result (space text.now) }
{
    let Some(literal) = number(text) else {
        return Err(AsmCause::Operand);
    };
    match natural(literal) {
        Some(size) => Ok(Meaning::Zeros(size.min(0xFFFF_FFFF) as u32)),
        None => Err(AsmCause::Range),
    }
}

#[tactic(auto, unfolding(crate::specs::Statement::ascii))]
pub fn ascii(text: &[u8]) -> Result<Meaning<'_>, AsmCause>
    ensures { Means result (ascii text.now) }
{
    let Some(quoted) = behind_mark(without_front(text)) else {
        return Err(AsmCause::Operand);
    };
    match quoted_length(quoted) {
        Some(_) => Ok(Meaning::Quoted(quoted)),
        None => Err(AsmCause::Operand),
    }
}

fn behind_mark(text: &[u8]) -> Option<&[u8]>
    ensures { MatchOption result (behind_mark text.now ≡ None) (λ quoted. behind_mark text.now ≡ Some quoted.now) }
{
    match text {
        [b'"', quoted @ ..] => Some(quoted),
        _ => None,
    }
}

/// How many bytes a quoted text stands for, from behind its first quotation mark; none where it is not one.
#[tactic(auto, unfolding(crate::specs::Statement::quoted_bytes))]
pub fn quoted_length(quoted: &[u8]) -> Option<usize>
    ensures { result ≡ option_map length (quoted_bytes false quoted.now) }
{
    let mut escaped = false;
    let mut count = 0;
    for (place, byte) in quoted.iter().enumerate() {
        if escaped {
            escape(*byte)?;
            count += 1;
            escaped = false;
        } else if *byte == b'"' {
            return if is_all_blank(&quoted[place + 1..]) {
                Some(count)
            } else {
                None
            };
        } else if *byte == b'\\' {
            escaped = true;
        } else {
            count += 1;
        }
    }
    None
}

/// What a byte behind a backslash stands for.
pub fn escape(byte: u8) -> Option<u8>
    ensures { result ≡ escape byte }
{
    match byte {
        b'n' => Some(b'\n'),
        b'0' => Some(0),
        b'\\' => Some(b'\\'),
        b'"' => Some(b'"'),
        _ => None,
    }
}
