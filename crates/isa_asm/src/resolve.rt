//! What a statement becomes at its place.

ghost use Rattle.std.specs.Prelude.{◌≡◌, ◌<◌, ◌≤◌, ◌^◌, ◌==◌, nat_le, ◌+◌, true, pos, neg_ℤ, ◌-ℤ◌, ◌≤ℤ◌, IfOk, IfErr, Ok, Err};
ghost use Rattle.isa_decode.specs.Ranges.{InRange};
ghost use Rattle.isa_asm.specs.Places.{address_at, address_items, after_statement, checked, checked_two, here, is_first_at, items_of, outcome};
ghost use Rattle.isa_asm.specs.Ranges.{in_range};
ghost use Rattle.isa_asm.specs.Seen.{IsSound, Resolves, code_items, meaning_seen, piece_seen, places_seen};
ghost use Rattle.isa_asm.specs.Source.{piece_meaning};

use crate::cause::AsmCause;
use crate::labels::Labels;
use crate::layout::Layout;
use crate::meaning::Meaning;
use crate::numbers::low_part;
use crate::source::{Piece, piece_meaning};
use isa_decode::{ImmOp, Instr, Width, is_in_range};

/// What a statement becomes.
#[derive(Clone, Copy)]
pub enum Code<'a> {
    Nothing,
    One(Instr),
    Two(Instr, Instr),
    Number(Width, u64),
    Zeros(u32),
    /// A text, from behind its first quotation mark.
    Quoted(&'a [u8]),
}

/// Text and data together have at most so many bytes.
const MOST: u64 = 1_048_576;

#[tactic(auto, using(crate::proofs::RangeFacts::range_yes, crate::proofs::RangeFacts::range_no))]
fn is_held(instr: &Instr) -> bool
    ensures value { result ≡ in_range instr.now }
    ensures sound { result ≡ true → InRange instr.now }
{
    is_in_range(instr)
}

#[tactic(auto, unfolding(crate::specs::Places::checked))]
fn checked<'a>(instr: Instr) -> Result<Code<'a>, AsmCause>
    ensures value { Resolves result (checked instr) }
    ensures sound { IfOk result IsSound }
{
    if is_held(&instr) {
        Ok(Code::One(instr))
    } else {
        Err(AsmCause::Range)
    }
}

#[tactic(auto, unfolding(crate::specs::Places::checked_two))]
fn checked_two<'a>(first: Instr, second: Instr) -> Result<Code<'a>, AsmCause>
    ensures value { Resolves result (checked_two first second) }
    ensures sound { IfOk result IsSound }
{
    if is_held(&first) && is_held(&second) {
        Ok(Code::Two(first, second))
    } else {
        Err(AsmCause::Range)
    }
}

/// How far a target is from a place.
fn distance(target: u64, place: u64) -> i64
    requires target { target < 2 ^ 34 }
    requires place { place < 2 ^ 34 }
    ensures value { result ≡ pos target -ℤ pos place }
    ensures low { neg_ℤ (pos (2 ^ 34)) ≤ℤ result }
    ensures high { result ≤ℤ pos (2 ^ 34) }
{
    target as i64 - place as i64
}

/// The address of a label into a register, by the distance from there.
fn address_code<'a>(rd: u8, distance: i64) -> Result<Code<'a>, AsmCause>
    requires low { neg_ℤ (pos (2 ^ 34)) ≤ℤ distance }
    requires high { distance ≤ℤ pos (2 ^ 34) }
    ensures value { Resolves result (address_items rd distance) }
    ensures sound { IfOk result IsSound }
{
    let low = low_part(distance);
    checked_two(
        Instr::Auipc {
            rd,
            imm: distance - low,
        },
        Instr::OpImm {
            op: ImmOp::Addi,
            rd,
            rs1: rd,
            imm: low,
        },
    )
}

fn is_first_at(labels: &Labels<'_>, index: usize, name: &[u8]) -> bool
    ensures { result ≡ is_first_at index ((places_seen labels.now).spot name.now) }
{
    match labels.spot(name) {
        Some(spot) => spot.index == index,
        None => false,
    }
}

/// What a statement becomes at its place.
#[tactic(auto, unfolding(crate::specs::Places::items_of))]
fn resolve<'a>(
    labels: &Labels<'_>,
    index: usize,
    layout: Layout,
    meaning: &Meaning<'a>,
) -> Result<Code<'a>, AsmCause>
    ensures value { Resolves result (items_of (places_seen labels.now) index layout (meaning_seen meaning.now)) }
    ensures sound { IfOk result IsSound }
{
    let here = labels.address(layout.here(index));
    match *meaning {
        Meaning::Nothing => Ok(Code::Nothing),
        Meaning::Named(name) => {
            if is_first_at(labels, index, name) {
                Ok(Code::Nothing)
            } else {
                Err(AsmCause::Twice)
            }
        }
        Meaning::Section(_) => Ok(Code::Nothing),
        Meaning::One(instr) => checked(instr),
        Meaning::Two(first, second) => checked_two(first, second),
        Meaning::Jump(rd, name) => match labels.label(name) {
            Some(target) => checked(Instr::Jal {
                rd,
                imm: distance(target, here),
            }),
            None => Err(AsmCause::Label),
        },
        Meaning::Conditional(cmp, rs1, rs2, name) => match labels.label(name) {
            Some(target) => checked(Instr::Branch {
                cmp,
                rs1,
                rs2,
                imm: distance(target, here),
            }),
            None => Err(AsmCause::Label),
        },
        Meaning::Address(rd, name) => match labels.label(name) {
            Some(target) => address_code(rd, distance(target, here)),
            None => Err(AsmCause::Label),
        },
        Meaning::Number(width, value) => Ok(Code::Number(width, value)),
        Meaning::Pointer(name) => match labels.label(name) {
            Some(target) => Ok(Code::Number(Width::Eight, target)),
            None => Err(AsmCause::Label),
        },
        Meaning::Zeros(size) => Ok(Code::Zeros(size)),
        Meaning::Quoted(quoted) => Ok(Code::Quoted(quoted)),
    }
}

/// Whether text and data aren't too big.
fn is_small(layout: Layout) -> bool
    ensures { result ≡ nat_le (layout.text_size + layout.data_size) (2 ^ 20) }
{
    u64::from(layout.text_size) + u64::from(layout.data_size) <= MOST
}

/// What a statement becomes, and the layout behind it; or its first cause.
pub fn outcome<'a>(
    labels: &Labels<'_>,
    index: usize,
    layout: Layout,
    piece: &Piece<'a>,
) -> Result<(Code<'a>, Layout), AsmCause>
    ensures ok { IfOk result (λ found. outcome (places_seen labels.now) index layout (piece_meaning (piece_seen piece.now)) ≡ Ok (code_items found.0)) }
    ensures next { IfOk result (λ found. found.1 ≡ after_statement layout (piece_meaning (piece_seen piece.now))) }
    ensures sound { IfOk result (λ found. IsSound found.0) }
    ensures err { IfErr result (λ because. outcome (places_seen labels.now) index layout (piece_meaning (piece_seen piece.now)) ≡ Err because) }
{
    let meaning = match piece_meaning(piece) {
        Ok(meaning) => meaning,
        Err(cause) => return Err(cause),
    };
    let next = layout.after(&meaning);
    let code = match resolve(labels, index, layout, &meaning) {
        Ok(code) => code,
        Err(cause) => return Err(cause),
    };
    if is_small(next) {
        Ok((code, next))
    } else {
        Err(AsmCause::TooBig)
    }
}
