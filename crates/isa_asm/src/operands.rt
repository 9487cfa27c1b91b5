//! The operands of statements.

ghost use Rattle.std.specs.Prelude.{◌≡◌, Some, None, MatchOption};
ghost use Rattle.isa_asm.specs.Operands.{address, enclosed, label, memory, number, register, register_and_address, register_and_label, register_and_memory, register_and_number, register_and_target, register_first, target, three_registers, two_and_address, two_and_number, two_and_target, two_registers};
ghost use Rattle.isa_asm.specs.Seen.{target_seen};

use crate::lexing::{cut_at, is_all_blank, is_name, only_word};
use crate::literal::{Literal, read_literal};
use crate::register::register_named;

/// Where a branch or a jump goes.
#[derive(Clone, Copy)]
pub enum Target<'a> {
    Offset(Literal),
    Label(&'a [u8]),
}

#[tactic(auto, unfolding(crate::specs::Operands::register))]
pub fn register(text: &[u8]) -> Option<u8>
    ensures { result ≡ register text.now }
{
    register_named(only_word(text)?)
}

#[tactic(auto, unfolding(crate::specs::Operands::number))]
pub fn number(text: &[u8]) -> Option<Literal>
    ensures { result ≡ number text.now }
{
    read_literal(only_word(text)?)
}

#[tactic(auto, unfolding(crate::specs::Operands::label))]
pub fn label(text: &[u8]) -> Option<&[u8]>
    ensures { MatchOption result (label text.now ≡ None) (λ name. label text.now ≡ Some name.now) }
{
    let word = only_word(text)?;
    if is_name(word) { Some(word) } else { None }
}

#[tactic(auto, unfolding(crate::specs::Operands::target))]
pub fn read_target(text: &[u8]) -> Option<Target<'_>>
    ensures { MatchOption result (target text.now ≡ None) (λ found. target text.now ≡ Some (target_seen found)) }
{
    let word = only_word(text)?;
    if is_name(word) {
        return Some(Target::Label(word));
    }
    match read_literal(word) {
        Some(offset) => Some(Target::Offset(offset)),
        None => None,
    }
}

/// A register and `)`, behind `(`.
#[tactic(auto, unfolding(crate::specs::Operands::enclosed))]
fn enclosed(text: &[u8]) -> Option<u8>
    ensures { result ≡ enclosed text.now }
{
    let parts = cut_at(b')', text)?;
    if is_all_blank(parts.behind) {
        register(parts.before)
    } else {
        None
    }
}

/// A register as an address.
#[tactic(auto, unfolding(crate::specs::Operands::address))]
fn address(text: &[u8]) -> Option<u8>
    ensures { result ≡ address text.now }
{
    let parts = cut_at(b'(', text)?;
    if is_all_blank(parts.before) {
        enclosed(parts.behind)
    } else {
        None
    }
}

/// An offset and a register.
#[tactic(auto, unfolding(crate::specs::Operands::memory))]
fn memory(text: &[u8]) -> Option<(Literal, u8)>
    ensures { result ≡ memory text.now }
{
    let parts = cut_at(b'(', text)?;
    let offset = number(parts.before)?;
    let base = enclosed(parts.behind)?;
    Some((offset, base))
}

/// A register, a comma, and what stands behind it.
#[tactic(auto, unfolding(crate::specs::Operands::register_first))]
fn register_first(text: &[u8]) -> Option<(u8, &[u8])>
    ensures { MatchOption result (register_first text.now ≡ None) (λ first. register_first text.now ≡ Some (first.0, first.1.now)) }
{
    let parts = cut_at(b',', text)?;
    let first = register(parts.before)?;
    Some((first, parts.behind))
}

#[tactic(auto, unfolding(crate::specs::Operands::register_and_number))]
pub fn register_and_number(text: &[u8]) -> Option<(u8, Literal)>
    ensures { result ≡ register_and_number text.now }
{
    let (first, rest) = register_first(text)?;
    let last = number(rest)?;
    Some((first, last))
}

#[tactic(auto, unfolding(crate::specs::Operands::register_and_label))]
pub fn register_and_label(text: &[u8]) -> Option<(u8, &[u8])>
    ensures { MatchOption result (register_and_label text.now ≡ None) (λ found. register_and_label text.now ≡ Some (found.0, found.1.now)) }
{
    let (first, rest) = register_first(text)?;
    let last = label(rest)?;
    Some((first, last))
}

#[tactic(auto, unfolding(crate::specs::Operands::register_and_target))]
pub fn register_and_target(text: &[u8]) -> Option<(u8, Target<'_>)>
    ensures { MatchOption result (register_and_target text.now ≡ None) (λ found. register_and_target text.now ≡ Some (found.0, target_seen found.1)) }
{
    let (first, rest) = register_first(text)?;
    let last = read_target(rest)?;
    Some((first, last))
}

#[tactic(auto, unfolding(crate::specs::Operands::register_and_memory))]
pub fn register_and_memory(text: &[u8]) -> Option<(u8, (Literal, u8))>
    ensures { result ≡ register_and_memory text.now }
{
    let (first, rest) = register_first(text)?;
    let last = memory(rest)?;
    Some((first, last))
}

#[tactic(auto, unfolding(crate::specs::Operands::register_and_address))]
pub fn register_and_address(text: &[u8]) -> Option<(u8, u8)>
    ensures { result ≡ register_and_address text.now }
{
    let (first, rest) = register_first(text)?;
    let last = address(rest)?;
    Some((first, last))
}

#[tactic(auto, unfolding(crate::specs::Operands::two_registers))]
pub fn two_registers(text: &[u8]) -> Option<(u8, u8)>
    ensures { result ≡ two_registers text.now }
{
    let (first, rest) = register_first(text)?;
    let last = register(rest)?;
    Some((first, last))
}

#[tactic(auto, unfolding(crate::specs::Operands::two_and_number))]
pub fn two_and_number(text: &[u8]) -> Option<(u8, (u8, Literal))>
    ensures { result ≡ two_and_number text.now }
{
    let (first, rest) = register_first(text)?;
    let last = register_and_number(rest)?;
    Some((first, last))
}

#[tactic(auto, unfolding(crate::specs::Operands::two_and_target))]
pub fn two_and_target(text: &[u8]) -> Option<(u8, (u8, Target<'_>))>
    ensures { MatchOption result (two_and_target text.now ≡ None) (λ found. two_and_target text.now ≡ Some (found.0, (found.1.0, target_seen found.1.1))) }
{
    let (first, rest) = register_first(text)?;
    let last = register_and_target(rest)?;
    Some((first, last))
}

#[tactic(auto, unfolding(crate::specs::Operands::two_and_address))]
pub fn two_and_address(text: &[u8]) -> Option<(u8, (u8, u8))>
    ensures { result ≡ two_and_address text.now }
{
    let (first, rest) = register_first(text)?;
    let last = register_and_address(rest)?;
    Some((first, last))
}

#[tactic(auto, unfolding(crate::specs::Operands::three_registers))]
pub fn three_registers(text: &[u8]) -> Option<(u8, (u8, u8))>
    ensures { result ≡ three_registers text.now }
{
    let (first, rest) = register_first(text)?;
    let last = two_registers(rest)?;
    Some((first, last))
}
