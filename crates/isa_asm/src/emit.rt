//! The bytes of statements.

ghost use Rattle.std.specs.Prelude.{◌≡◌, ◌<◌, ◌^◌, ◌++◌, [], ◌∷◌, replicate, unwrap_or, false, OnOk, IsSome, Some};
ghost use Rattle.std.specs.Option.{option_map};
ghost use Rattle.isa_decode.specs.Ranges.{InRange};
ghost use Rattle.isa_asm.specs.Places.{Instruction, byte_items, number_bytes};
ghost use Rattle.isa_asm.specs.Seen.{Emits, IsSound, code_items};
ghost use Rattle.isa_asm.specs.Statement.{quoted_bytes};

use crate::directives::{escape, quoted_length};
use crate::resolve::Code;
use isa_decode::{Instr, Width, encode};
use std::alloc::AllocError;

/// Adds the word of an instruction.
#[tactic(auto, using(crate::proofs::EmitFacts::emits_word))]
fn push_instruction(out: &mut Vec<u8>, instr: &Instr) -> Result<(), AllocError>
    requires { InRange instr.now }
    ensures { OnOk result (Emits (Instruction instr.now ∷ []) out.old.items out.new.items) }
{
    let word = encode(instr);
    out.extend_from_slice(&word.to_le_bytes())
}

#[tactic(auto, using(crate::proofs::EmitFacts::emits_two))]
fn push_two(out: &mut Vec<u8>, first: &Instr, second: &Instr) -> Result<(), AllocError>
    requires first { InRange first.now }
    requires second { InRange second.now }
    ensures { OnOk result (Emits (Instruction first.now ∷ Instruction second.now ∷ []) out.old.items out.new.items) }
{
    push_instruction(out, first)?;
    push_instruction(out, second)
}

/// Adds a number, the lowest byte first.
fn push_number(out: &mut Vec<u8>, width: Width, value: u64) -> Result<(), AllocError>
    ensures { OnOk result (out.new.items ≡ out.old.items ++ number_bytes width value) }
{
    match width {
        Width::One => out.extend_from_slice(&[(value % 0x100) as u8]),
        Width::Two => out.extend_from_slice(&((value % 0x1_0000) as u16).to_le_bytes()),
        Width::Four => out.extend_from_slice(&((value % 0x1_0000_0000) as u32).to_le_bytes()),
        Width::Eight => out.extend_from_slice(&value.to_le_bytes()),
    }
}

#[tactic(auto, using(crate::proofs::EmitFacts::emits_bytes))]
fn push_zeros(out: &mut Vec<u8>, size: u32) -> Result<(), AllocError>
    ensures { OnOk result (Emits (byte_items (replicate size 0)) out.old.items out.new.items) }
{
    match fill(out, size as usize) {
        Ok(()) => Ok(()),
        Err(error) => Err(error),
    }
}

/// Adds so many zeros.
fn fill(out: &mut Vec<u8>, size: usize) -> Result<(), AllocError>
    requires { size < 2 ^ 33 }
    ensures { OnOk result (out.new.items ≡ out.old.items ++ replicate size 0) }
{
    out.resize(out.len() + size, 0)
}

/// Adds the bytes of a quoted text, if it is one.
#[tactic(auto, using(crate::proofs::EmitFacts::emits_text, crate::proofs::EmitFacts::emits_nothing))]
fn push_quoted(out: &mut Vec<u8>, quoted: &[u8]) -> Result<(), AllocError>
    ensures { OnOk result (Emits (byte_items (unwrap_or (quoted_bytes false quoted.now) [])) out.old.items out.new.items) }
{
    match quoted_length(quoted) {
        Some(_) => match push_text(out, quoted) {
            Ok(()) => Ok(()),
            Err(error) => Err(error),
        },
        None => Ok(()),
    }
}

#[tactic(auto, unfolding(crate::specs::Statement::quoted_bytes))]
fn push_text(out: &mut Vec<u8>, quoted: &[u8]) -> Result<(), AllocError>
    requires { IsSome (quoted_bytes false quoted.now) }
    ensures { OnOk result (Some out.new.items ≡ option_map (λ bytes. out.old.items ++ bytes) (quoted_bytes false quoted.now)) }
{
    let mut escaped = false;
    for byte in quoted {
        if escaped {
            out.push(escape(*byte).unwrap_or(0))?;
            escaped = false;
        } else if *byte == b'"' {
            return Ok(());
        } else if *byte == b'\\' {
            escaped = true;
        } else {
            out.push(*byte)?;
        }
    }
    Ok(())
}

/// Adds what a statement becomes.
#[tactic(auto, using(crate::proofs::EmitFacts::emits_nothing, crate::proofs::EmitFacts::emits_bytes))]
pub fn emit(out: &mut Vec<u8>, code: &Code<'_>) -> Result<(), AllocError>
    requires { IsSound code.now }
    ensures { OnOk result (Emits (code_items code.now) out.old.items out.new.items) }
{
    match *code {
        Code::Nothing => Ok(()),
        Code::One(instr) => push_instruction(out, &instr),
        Code::Two(first, second) => push_two(out, &first, &second),
        Code::Number(width, value) => push_number(out, width, value),
        Code::Zeros(size) => push_zeros(out, size),
        Code::Quoted(quoted) => push_quoted(out, quoted),
    }
}
