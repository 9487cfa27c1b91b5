//! Effects of instructions, carried out.

ghost use Rattle.std.specs.Prelude.{◌≡◌, ◌<◌, List, IfOk, IfErr, OnOk, OnErr, Ok, MatchResult};
ghost use Rattle.isa_step.specs.Instruction.{InstructionOutcome, combines, reserves, stores, stores_conditionally, load_size, loaded, loads, store_size};
ghost use Rattle.isa_exec.specs.Execution.{put};
ghost use Rattle.guest_pages.specs.Sizes.{size_of as bytes_of};
ghost use Rattle.word_memory.specs.declared.reservations.Held.{Held};
ghost use Rattle.isa_step.specs.Effects.{carried, HasRegister};
ghost use Rattle.isa_step.specs.Made.{outcome};

use crate::executing::Made;
use crate::fault::Fault;
use crate::faults::{breakpoint, fault_of_page, fault_of_word};
use guest_pages::Pages;
use isa_decode::{AmoOp, LoadKind, Width};
use isa_exec::{Effect, Regs};
use word_memory::{Reservations, amo, load_reserved, store_conditional};

/// How wide a load is.
#[inline]
fn width_of_load(kind: LoadKind) -> guest_pages::Width
    ensures { bytes_of result ≡ load_size kind }
{
    match kind {
        LoadKind::Lb => guest_pages::Width::One,
        LoadKind::Lh => guest_pages::Width::Two,
        LoadKind::Lw => guest_pages::Width::Four,
        LoadKind::Ld => guest_pages::Width::Eight,
        LoadKind::Lbu => guest_pages::Width::One,
        LoadKind::Lhu => guest_pages::Width::Two,
        LoadKind::Lwu => guest_pages::Width::Four,
    }
}

/// How wide a store is.
#[inline]
pub fn width_of_store(width: Width) -> guest_pages::Width
    ensures { bytes_of result ≡ store_size width }
{
    match width {
        Width::One => guest_pages::Width::One,
        Width::Two => guest_pages::Width::Two,
        Width::Four => guest_pages::Width::Four,
        Width::Eight => guest_pages::Width::Eight,
    }
}

#[inline]
pub fn signed_byte(value: u64) -> u64
    ensures { result ≡ loaded LoadKind.Lb value }
{
    i64::from(((value % 0x100) as u8).cast_signed()).cast_unsigned()
}

#[inline]
pub fn signed_half(value: u64) -> u64
    ensures { result ≡ loaded LoadKind.Lh value }
{
    i64::from(((value % 0x1_0000) as u16).cast_signed()).cast_unsigned()
}

#[inline]
pub fn signed_word(value: u64) -> u64
    ensures { result ≡ loaded LoadKind.Lw value }
{
    i64::from(((value % 0x1_0000_0000) as u32).cast_signed()).cast_unsigned()
}

/// What a register holds of a number that was loaded.
#[inline]
fn fill(kind: LoadKind, value: u64) -> u64
    ensures { result ≡ loaded kind value }
{
    match kind {
        LoadKind::Lb => signed_byte(value),
        LoadKind::Lh => signed_half(value),
        LoadKind::Lw => signed_word(value),
        LoadKind::Ld => value,
        LoadKind::Lbu => value,
        LoadKind::Lhu => value,
        LoadKind::Lwu => value,
    }
}

/// The value goes into `rd`, and the program goes on behind the instruction.
#[inline]
pub fn put(regs: &mut Regs, rd: u8, value: u64, size: u64)
    requires { rd < 32 }
    ensures { regs.new ≡ put rd value size regs.old }
{
    let next = regs.behind(size);
    regs.set_register(rd, value);
    regs.go_on_at(next);
}

#[inline]
#[tactic(auto, unfolding(crate::specs::Instruction::loads))]
fn load(
    kind: LoadKind,
    rd: u8,
    at: u64,
    size: u64,
    regs: &mut Regs,
    memory: &Pages,
) -> Result<(), Fault>
    requires { rd < 32 }
    ensures made { (held : List Held) → MatchResult result
        (λ _. loads kind rd at size regs.old memory.now held ≡ InstructionOutcome.Runs regs.new memory.now held)
        (λ fault. loads kind rd at size regs.old memory.now held ≡ InstructionOutcome.Faults fault) }
    ensures err { OnErr result (regs.new ≡ regs.old) }
{
    match memory.load(at, width_of_load(kind)) {
        Ok(value) => {
            put(regs, rd, fill(kind, value), size);
            Ok(())
        }
        Err(fault) => Err(fault_of_page(fault)),
    }
}

#[inline]
#[tactic(auto, unfolding(crate::specs::Instruction::stores))]
fn store(
    thread: u32,
    width: Width,
    at: u64,
    value: u64,
    size: u64,
    regs: &mut Regs,
    memory: &mut Pages,
    held: &mut Reservations,
) -> Result<(), Fault>
    ensures made { OnOk result (stores thread width at value size regs.old memory.old held.old ≡ InstructionOutcome.Runs regs.new memory.new held.new) }
    ensures fault { IfErr result (λ fault. stores thread width at value size regs.old memory.old held.old ≡ InstructionOutcome.Faults fault) }
    ensures err { OnErr result ((regs.new ≡ regs.old) × (memory.new ≡ memory.old) × (held.new ≡ held.old)) }
{
    let wide = width_of_store(width);
    match memory.store(at, wide, value) {
        Ok(()) => {
            held.stored(thread, at, wide.size() as u64);
            let next = regs.behind(size);
            regs.go_on_at(next);
            Ok(())
        }
        Err(fault) => Err(fault_of_page(fault)),
    }
}

#[inline]
#[tactic(auto, unfolding(crate::specs::Instruction::reserves))]
fn reserve(
    thread: u32,
    wide: bool,
    rd: u8,
    at: u64,
    size: u64,
    regs: &mut Regs,
    memory: &Pages,
    held: &mut Reservations,
) -> Result<(), Fault>
    requires { rd < 32 }
    ensures made { OnOk result (reserves thread wide rd at size regs.old memory.now held.old ≡ InstructionOutcome.Runs regs.new memory.now held.new) }
    ensures fault { IfErr result (λ fault. reserves thread wide rd at size regs.old memory.now held.old ≡ InstructionOutcome.Faults fault) }
    ensures err { OnErr result ((regs.new ≡ regs.old) × (held.new ≡ held.old)) }
{
    match load_reserved(memory, held, thread, at, wide) {
        Ok(value) => {
            put(regs, rd, value, size);
            Ok(())
        }
        Err(fault) => Err(fault_of_word(fault)),
    }
}

#[inline]
#[tactic(auto, unfolding(crate::specs::Instruction::stores_conditionally))]
fn store_if_reserved(
    thread: u32,
    wide: bool,
    rd: u8,
    at: u64,
    value: u64,
    size: u64,
    regs: &mut Regs,
    memory: &mut Pages,
    held: &mut Reservations,
) -> Result<(), Fault>
    requires { rd < 32 }
    ensures made { OnOk result (stores_conditionally thread wide rd at value size regs.old memory.old held.old ≡ InstructionOutcome.Runs regs.new memory.new held.new) }
    ensures fault { IfErr result (λ fault. stores_conditionally thread wide rd at value size regs.old memory.old held.old ≡ InstructionOutcome.Faults fault) }
    ensures err { OnErr result ((regs.new ≡ regs.old) × (memory.new ≡ memory.old) × (held.new ≡ held.old)) }
{
    match store_conditional(memory, held, thread, at, wide, value) {
        Ok(stored) => {
            put(regs, rd, u64::from(!stored), size);
            Ok(())
        }
        Err(fault) => Err(fault_of_word(fault)),
    }
}

#[inline]
#[tactic(auto, unfolding(crate::specs::Instruction::combines))]
fn combine(
    thread: u32,
    op: AmoOp,
    wide: bool,
    rd: u8,
    at: u64,
    value: u64,
    size: u64,
    regs: &mut Regs,
    memory: &mut Pages,
    held: &mut Reservations,
) -> Result<(), Fault>
    requires { rd < 32 }
    ensures made { OnOk result (combines thread op wide rd at value size regs.old memory.old held.old ≡ InstructionOutcome.Runs regs.new memory.new held.new) }
    ensures fault { IfErr result (λ fault. combines thread op wide rd at value size regs.old memory.old held.old ≡ InstructionOutcome.Faults fault) }
    ensures err { OnErr result ((regs.new ≡ regs.old) × (memory.new ≡ memory.old) × (held.new ≡ held.old)) }
{
    match amo(memory, held, thread, at, op, wide, value) {
        Ok(old) => {
            put(regs, rd, old, size);
            Ok(())
        }
        Err(fault) => Err(fault_of_word(fault)),
    }
}

/// Carries out what an instruction of `size` bytes asks for.
#[inline]
pub fn carry_out(
    thread: u32,
    effect: &Effect,
    size: u64,
    regs: &mut Regs,
    memory: &mut Pages,
    held: &mut Reservations,
) -> Result<Made, Fault>
    requires { HasRegister effect.now }
    ensures made { IfOk result (λ made. carried thread effect.now size regs.old memory.old held.old ≡ outcome made regs.new memory.new held.new) }
    ensures call { result ≡ Ok Made.Call → (regs.new ≡ regs.old) × (memory.new ≡ memory.old) × (held.new ≡ held.old) }
    ensures fault { IfErr result (λ fault. carried thread effect.now size regs.old memory.old held.old ≡ InstructionOutcome.Faults fault) }
    ensures err { OnErr result ((regs.new ≡ regs.old) × (memory.new ≡ memory.old) × (held.new ≡ held.old)) }
{
    match *effect {
        Effect::Next => Ok(Made::Done),
        Effect::Jump => Ok(Made::Done),
        Effect::Load { rd, kind, at } => match load(kind, rd, at, size, regs, memory) {
            Ok(()) => Ok(Made::Done),
            Err(fault) => Err(fault),
        },
        Effect::Store { width, at, value } => {
            match store(thread, width, at, value, size, regs, memory, held) {
                Ok(()) => Ok(Made::Done),
                Err(fault) => Err(fault),
            }
        }
        Effect::Reserve { rd, wide, at } => {
            match reserve(thread, wide, rd, at, size, regs, memory, held) {
                Ok(()) => Ok(Made::Done),
                Err(fault) => Err(fault),
            }
        }
        Effect::Conditional {
            rd,
            wide,
            at,
            value,
        } => {
            match store_if_reserved(thread, wide, rd, at, value, size, regs, memory, held) {
                Ok(()) => Ok(Made::Done),
                Err(fault) => Err(fault),
            }
        }
        Effect::Amo {
            rd,
            op,
            wide,
            at,
            value,
        } => {
            match combine(thread, op, wide, rd, at, value, size, regs, memory, held) {
                Ok(()) => Ok(Made::Done),
                Err(fault) => Err(fault),
            }
        }
        Effect::Call => Ok(Made::Call),
        Effect::Break => Err(breakpoint(regs.pc())),
    }
}
