//! Many plain instructions in one go.

ghost use Rattle.std.specs.Prelude.{◌≡◌, ◌<◌, ◌≤◌};
ghost use Rattle.std.specs.List.{All};
ghost use Rattle.guest_pages.specs.Apart.{IsApart, KeepsCode};
ghost use Rattle.isa_step.specs.Instruction.{instruction, IsPlain};
ghost use Rattle.isa_step.specs.Known.{IsKnown};
ghost use Rattle.isa_step.specs.Running.{PlainRun};

use crate::decoder::Decoder;
use crate::executing::make_plain;
use guest_pages::Pages;
use isa_exec::Regs;
use word_memory::Reservations;

/// Makes instructions of the thread from pc on, at most so many, up to the first that asks for a call or faults, and tells
/// how many it made. It takes no memory, and each instruction constant time, but for the reservations of threads, which a
/// store goes through while one stands.
///
/// References: the RISC-V unprivileged manual, "RV64I", "M", "A", "C" and "Zifencei".
#[inline(never)]
pub fn run_plain(
    thread: u32,
    regs: &mut Regs,
    memory: &mut Pages,
    held: &mut Reservations,
    decoder: &mut Decoder,
    limit: u32,
) -> u32
    requires apart { IsApart memory.old }
    requires known { All (IsKnown memory.old) decoder.old }
    ensures most { result ≤ limit }
    ensures ran { PlainRun result thread regs.old memory.old held.old regs.new memory.new held.new }
    ensures stops { result < limit → IsPlain (instruction thread regs.new memory.new held.new) → ⊥ }
    ensures code { KeepsCode memory.old memory.new }
    ensures apart { IsApart memory.new }
    ensures known { All (IsKnown memory.new) decoder.new }
{
    for made in 0..limit {
        if !make_plain(thread, regs, memory, held, decoder) {
            return made;
        }
    }
    limit
}
