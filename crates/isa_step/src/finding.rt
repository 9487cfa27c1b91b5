//! The instruction at pc.

ghost use Rattle.std.specs.Prelude.{◌≡◌, ◌⊎◌, ◌+◌, ◌*◌, ◌^◌, ℕ, List, IfOk, true, MatchResult};
ghost use Rattle.isa_compressed.specs.Expansion.{expansion};
ghost use Rattle.isa_decode.specs.Listing.{decoding};
ghost use Rattle.isa_decode.specs.Ranges.{InRange};
ghost use Rattle.isa_step.specs.Instruction.{Found, InstructionOutcome, is_or_illegal, found, instruction};
ghost use Rattle.word_memory.specs.declared.reservations.Held.{Held};

use crate::fault::Fault;
use crate::faults::{fault_of_page, illegal};
use guest_pages::Pages;
use isa_compressed::expand;
use isa_decode::{Instr, decode};
use isa_exec::Regs;

/// The instruction at pc, with its number of bytes.
///
/// References: the RISC-V unprivileged manual, "Base Instruction-Length Encoding".
#[inline]
#[tactic(auto, unfolding(crate::specs::Instruction::found))]
pub fn find(regs: &Regs, memory: &Pages) -> Result<(Instr, u64), Fault>
    ensures found { MatchResult result
        (λ of. found regs.now memory.now ≡ Found.Is of.0 of.1)
        (λ fault. found regs.now memory.now ≡ Found.IsNot fault) }
    ensures range { IfOk result (λ of. InRange of.0) }
    ensures size { IfOk result (λ of. (of.1 ≡ 2) ⊎ (of.1 ≡ 4)) }
{
    match memory.fetch_pair(regs.pc()) {
        Some((low, high)) => {
            if low % 4 == 3 {
                return of_word(regs.pc(), low, high);
            }
            of_half(regs.pc(), low)
        }
        None => find_apart(regs, memory),
    }
}

/// The same where the code at pc doesn't lie in one page, or can't be executed.
#[cold]
#[inline(never)]
#[tactic(auto, unfolding(crate::specs::Instruction::found))]
fn find_apart(regs: &Regs, memory: &Pages) -> Result<(Instr, u64), Fault>
    ensures found { MatchResult result
        (λ of. found regs.now memory.now ≡ Found.Is of.0 of.1)
        (λ fault. found regs.now memory.now ≡ Found.IsNot fault) }
    ensures range { IfOk result (λ of. InRange of.0) }
    ensures size { IfOk result (λ of. (of.1 ≡ 2) ⊎ (of.1 ≡ 4)) }
{
    let low = match memory.fetch(regs.pc()) {
        Ok(low) => low,
        Err(fault) => return Err(fault_of_page(fault)),
    };
    if low % 4 != 3 {
        return of_half(regs.pc(), low);
    }
    match memory.fetch(regs.behind(2)) {
        Ok(high) => of_word(regs.pc(), low, high),
        Err(fault) => Err(fault_of_page(fault)),
    }
}

/// The instruction of a half word.
#[inline]
fn of_half(pc: u64, half: u16) -> Result<(Instr, u64), Fault>
    ensures found { MatchResult result
        (λ of. is_or_illegal pc 2 (expansion half) ≡ Found.Is of.0 of.1)
        (λ fault. is_or_illegal pc 2 (expansion half) ≡ Found.IsNot fault) }
    ensures range { IfOk result (λ of. InRange of.0) }
    ensures size { IfOk result (λ of. of.1 ≡ 2) }
{
    match expand(half) {
        Some(instr) => Ok((instr, 2)),
        None => Err(illegal(pc)),
    }
}

/// The instruction of a word of two half words.
#[inline(always)]
fn of_word(pc: u64, low: u16, high: u16) -> Result<(Instr, u64), Fault>
    ensures found { MatchResult result
        (λ of. is_or_illegal pc 4 (decoding (low + 2 ^ 16 * high)) ≡ Found.Is of.0 of.1)
        (λ fault. is_or_illegal pc 4 (decoding (low + 2 ^ 16 * high)) ≡ Found.IsNot fault) }
    ensures range { IfOk result (λ of. InRange of.0) }
    ensures size { IfOk result (λ of. of.1 ≡ 4) }
{
    match decode(u32::from(high) * 0x1_0000 + u32::from(low)) {
        Some(instr) => Ok((instr, 4)),
        None => Err(illegal(pc)),
    }
}

/// Whether the instruction at pc asks for a call of the system. It takes no memory.
#[tactic(auto, using(crate::proofs::EffectFacts::calls_is_ecall), unfolding(crate::specs::Instruction::instruction, crate::specs::Instruction::executed))]
pub fn is_at_call(regs: &Regs, memory: &Pages) -> bool
    ensures yes { result ≡ true → (thread : ℕ) (held : List Held) → instruction thread regs.now memory.now held ≡ InstructionOutcome.Calls }
    ensures no { (thread : ℕ) (held : List Held) → instruction thread regs.now memory.now held ≡ InstructionOutcome.Calls → result ≡ true }
{
    match find(regs, memory) {
        Ok((Instr::Ecall, _)) => true,
        _ => false,
    }
}
