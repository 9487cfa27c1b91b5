//! One instruction, found at pc, made, and its effect carried out.

ghost use Rattle.std.specs.Prelude.{◌≡◌, ◌⊎◌, IfOk, IfErr, OnErr, true, false, Ok};
ghost use Rattle.std.specs.List.{All};
ghost use Rattle.isa_decode.specs.Ranges.{InRange};
ghost use Rattle.isa_step.specs.Instruction.{InstructionOutcome, executed, instruction, IsPlain};
ghost use Rattle.isa_step.specs.Known.{IsKnown};
ghost use Rattle.isa_step.specs.Made.{outcome};

use crate::decoder::{Decoder, Known};
use crate::effects::{carry_out, put};
use crate::fault::Fault;
use crate::finding::find;
use crate::near::{load_near, store_near};
use guest_pages::Pages;
use isa_decode::Instr;
use isa_exec::{Regs, address, exec, exec_alone, exec_operation, exec_transfer};
use word_memory::Reservations;

/// What an instruction came to.
#[derive(Clone, Copy)]
pub enum Made {
    /// It was made.
    Done,
    /// It asks for a call of the system, and nothing has changed.
    Call,
}

/// Makes an instruction of `size` bytes.
#[inline]
#[tactic(auto, using(crate::proofs::EffectFacts::in_range_has_register, crate::proofs::EffectFacts::carried_is_row, crate::proofs::EffectFacts::fault_keeps_regs, crate::proofs::EffectFacts::call_keeps_regs))]
fn make(
    thread: u32,
    instr: &Instr,
    size: u64,
    regs: &mut Regs,
    memory: &mut Pages,
    held: &mut Reservations,
) -> Result<Made, Fault>
    requires range { InRange instr.now }
    requires size { (size ≡ 2) ⊎ (size ≡ 4) }
    ensures made { IfOk result (λ made. executed thread instr.now size regs.old memory.old held.old ≡ outcome made regs.new memory.new held.new) }
    ensures call { result ≡ Ok Made.Call → (regs.new ≡ regs.old) × (memory.new ≡ memory.old) × (held.new ≡ held.old) }
    ensures fault { IfErr result (λ fault. executed thread instr.now size regs.old memory.old held.old ≡ InstructionOutcome.Faults fault) }
    ensures err { OnErr result ((regs.new ≡ regs.old) × (memory.new ≡ memory.old) × (held.new ≡ held.old)) }
{
    let effect = exec(instr, size, regs);
    carry_out(thread, &effect, size, regs, memory, held)
}

/// Makes the thread's instruction at pc. After a call or a fault all is as it was. It takes no memory, and constant time,
/// but for the reservations of threads, which a store goes through while one stands.
///
/// References: the RISC-V unprivileged manual, "RV64I", "M", "A", "C" and "Zifencei".
#[inline]
#[tactic(auto, unfolding(crate::specs::Instruction::instruction))]
pub fn make_instruction(
    thread: u32,
    regs: &mut Regs,
    memory: &mut Pages,
    held: &mut Reservations,
) -> Result<Made, Fault>
    ensures made { IfOk result (λ made. instruction thread regs.old memory.old held.old ≡ outcome made regs.new memory.new held.new) }
    ensures call { result ≡ Ok Made.Call → (regs.new ≡ regs.old) × (memory.new ≡ memory.old) × (held.new ≡ held.old) }
    ensures fault { IfErr result (λ fault. instruction thread regs.old memory.old held.old ≡ InstructionOutcome.Faults fault) }
    ensures err { OnErr result ((regs.new ≡ regs.old) × (memory.new ≡ memory.old) × (held.new ≡ held.old)) }
{
    match find(regs, memory) {
        Ok((instr, size)) => make(thread, &instr, size, regs, memory, held),
        Err(fault) => Err(fault),
    }
}

/// Makes the thread's instruction at pc where it neither asks for a call nor faults, and tells whether it does; else all
/// stays. It looks for it only where it isn't kept. It takes no memory, and constant time, but for the reservations of
/// threads, which a store goes through while one stands.
#[inline(always)]
#[tactic(auto, using(crate::proofs::KnownFacts::known_is), unfolding(crate::specs::Instruction::instruction))]
pub fn make_plain(
    thread: u32,
    regs: &mut Regs,
    memory: &mut Pages,
    held: &mut Reservations,
    decoder: &mut Decoder,
) -> bool
    requires { All (IsKnown memory.old) decoder.old }
    ensures made { result ≡ true → instruction thread regs.old memory.old held.old ≡ InstructionOutcome.Runs regs.new memory.new held.new }
    ensures stops { result ≡ false → IsPlain (instruction thread regs.old memory.old held.old) → ⊥ }
    ensures stays { result ≡ false → (regs.new ≡ regs.old) × (memory.new ≡ memory.old) × (held.new ≡ held.old) }
    ensures known { All (IsKnown memory.old) decoder.new }
{
    let known = decoder.at(regs.pc());
    if known.address == regs.pc() {
        if known.size == 4 {
            return make_known(thread, known, 4, regs, memory, held);
        }
        if known.size == 2 {
            return make_known(thread, known, 2, regs, memory, held);
        }
    }
    make_new(thread, regs, memory, held, decoder)
}

/// The same of an instruction of `size` bytes. What kind it is was looked at when it was kept, so that a few tests find its
/// form: on many processors a jump by a table costs more.
#[inline(always)]
#[tactic(auto, using(crate::proofs::EffectFacts::operation_is_row))]
fn make_known(
    thread: u32,
    known: &Known,
    size: u64,
    regs: &mut Regs,
    memory: &mut Pages,
    held: &mut Reservations,
) -> bool
    requires range { InRange known.now.instr }
    requires size { (size ≡ 2) ⊎ (size ≡ 4) }
    ensures made { result ≡ true → executed thread known.now.instr size regs.old memory.old held.old ≡ InstructionOutcome.Runs regs.new memory.new held.new }
    ensures stops { result ≡ false → IsPlain (executed thread known.now.instr size regs.old memory.old held.old) → ⊥ }
    ensures stays { result ≡ false → (regs.new ≡ regs.old) × (memory.new ≡ memory.old) × (held.new ≡ held.old) }
{
    if known.accesses {
        return make_access(thread, &known.instr, size, regs, memory, held);
    }
    if known.transfers {
        return make_transfer(thread, &known.instr, size, regs, memory, held);
    }
    if exec_operation(&known.instr, size, regs) {
        return true;
    }
    make_alone(thread, &known.instr, size, regs, memory, held)
}

/// The same, where loads and stores within one page go first.
#[inline(always)]
#[tactic(auto, unfolding(crate::specs::Instruction::loads, crate::specs::Instruction::stores, crate::specs::Instruction::executed))]
fn make_access(
    thread: u32,
    instr: &Instr,
    size: u64,
    regs: &mut Regs,
    memory: &mut Pages,
    held: &mut Reservations,
) -> bool
    requires range { InRange instr.now }
    requires size { (size ≡ 2) ⊎ (size ≡ 4) }
    ensures made { result ≡ true → executed thread instr.now size regs.old memory.old held.old ≡ InstructionOutcome.Runs regs.new memory.new held.new }
    ensures stops { result ≡ false → IsPlain (executed thread instr.now size regs.old memory.old held.old) → ⊥ }
    ensures stays { result ≡ false → (regs.new ≡ regs.old) × (memory.new ≡ memory.old) × (held.new ≡ held.old) }
{
    if let Instr::Load { kind, rd, rs1, imm } = *instr {
        if let Some(value) = load_near(kind, address(regs, rs1, imm), memory) {
            put(regs, rd, value, size);
            return true;
        }
    }
    if let Instr::Store {
        width,
        rs1,
        rs2,
        imm,
    } = *instr
    {
        let at = address(regs, rs1, imm);
        let value = regs.register(rs2);
        if store_near(thread, width, at, value, memory, held) {
            let next = regs.behind(size);
            regs.go_on_at(next);
            return true;
        }
    }
    make_other(thread, instr, size, regs, memory, held)
}

/// The same, where branches and jumps go first.
#[inline(always)]
#[tactic(auto, using(crate::proofs::EffectFacts::transfer_is_row))]
fn make_transfer(
    thread: u32,
    instr: &Instr,
    size: u64,
    regs: &mut Regs,
    memory: &mut Pages,
    held: &mut Reservations,
) -> bool
    requires range { InRange instr.now }
    requires size { (size ≡ 2) ⊎ (size ≡ 4) }
    ensures made { result ≡ true → executed thread instr.now size regs.old memory.old held.old ≡ InstructionOutcome.Runs regs.new memory.new held.new }
    ensures stops { result ≡ false → IsPlain (executed thread instr.now size regs.old memory.old held.old) → ⊥ }
    ensures stays { result ≡ false → (regs.new ≡ regs.old) × (memory.new ≡ memory.old) × (held.new ≡ held.old) }
{
    if exec_transfer(instr, size, regs) {
        return true;
    }
    make_other(thread, instr, size, regs, memory, held)
}

/// The same, where those on registers alone go first.
#[inline(never)]
#[tactic(auto, using(crate::proofs::EffectFacts::alone_is_row, crate::proofs::EffectFacts::else_stays))]
fn make_alone(
    thread: u32,
    instr: &Instr,
    size: u64,
    regs: &mut Regs,
    memory: &mut Pages,
    held: &mut Reservations,
) -> bool
    requires range { InRange instr.now }
    requires size { (size ≡ 2) ⊎ (size ≡ 4) }
    ensures made { result ≡ true → executed thread instr.now size regs.old memory.old held.old ≡ InstructionOutcome.Runs regs.new memory.new held.new }
    ensures stops { result ≡ false → IsPlain (executed thread instr.now size regs.old memory.old held.old) → ⊥ }
    ensures stays { result ≡ false → (regs.new ≡ regs.old) × (memory.new ≡ memory.old) × (held.new ≡ held.old) }
{
    if exec_alone(instr, size, regs) {
        return true;
    }
    make_other(thread, instr, size, regs, memory, held)
}

/// The same of any instruction.
#[inline(never)]
fn make_other(
    thread: u32,
    instr: &Instr,
    size: u64,
    regs: &mut Regs,
    memory: &mut Pages,
    held: &mut Reservations,
) -> bool
    requires range { InRange instr.now }
    requires size { (size ≡ 2) ⊎ (size ≡ 4) }
    ensures made { result ≡ true → executed thread instr.now size regs.old memory.old held.old ≡ InstructionOutcome.Runs regs.new memory.new held.new }
    ensures stops { result ≡ false → IsPlain (executed thread instr.now size regs.old memory.old held.old) → ⊥ }
    ensures stays { result ≡ false → (regs.new ≡ regs.old) × (memory.new ≡ memory.old) × (held.new ≡ held.old) }
{
    match make(thread, instr, size, regs, memory, held) {
        Ok(Made::Done) => true,
        Ok(Made::Call) => false,
        Err(_) => false,
    }
}

/// The same of an instruction that isn't kept, which is kept from now on.
#[cold]
#[inline(never)]
#[tactic(auto, unfolding(crate::specs::Instruction::instruction))]
fn make_new(
    thread: u32,
    regs: &mut Regs,
    memory: &mut Pages,
    held: &mut Reservations,
    decoder: &mut Decoder,
) -> bool
    requires { All (IsKnown memory.old) decoder.old }
    ensures made { result ≡ true → instruction thread regs.old memory.old held.old ≡ InstructionOutcome.Runs regs.new memory.new held.new }
    ensures stops { result ≡ false → IsPlain (instruction thread regs.old memory.old held.old) → ⊥ }
    ensures stays { result ≡ false → (regs.new ≡ regs.old) × (memory.new ≡ memory.old) × (held.new ≡ held.old) }
    ensures known { All (IsKnown memory.old) decoder.new }
{
    match find(regs, memory) {
        Ok((instr, size)) => {
            decoder.keep(Known {
                address: regs.pc(),
                size: size as u8,
                accesses: accesses(&instr),
                transfers: transfers(&instr),
                instr,
            });
            make_other(thread, &instr, size, regs, memory, held)
        }
        Err(_) => false,
    }
}

/// Whether it is a load or a store. It is asked for speed alone.
fn accesses(instr: &Instr) -> bool {
    matches!(*instr, Instr::Load { .. } | Instr::Store { .. })
}

/// Whether it is a branch or a jump. It is asked for speed alone.
fn transfers(instr: &Instr) -> bool {
    matches!(
        *instr,
        Instr::Branch { .. } | Instr::Jal { .. } | Instr::Jalr { .. }
    )
}
