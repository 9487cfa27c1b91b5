//! What an instruction that can't be made tells.

ghost use Rattle.std.specs.Prelude.{◌≡◌};
ghost use Rattle.isa_step.specs.Instruction.{breakpoint as breakpoint_at, fault_of_word as word_fault_of, illegal as illegal_at, fault_of_page as page_fault_of};

use crate::fault::Fault;
use crate::signal::SigNo;
use guest_pages::PageFault;
use word_memory::WordFault;

/// The fault of a word that is no instruction.
pub fn illegal(pc: u64) -> Fault
    ensures { result ≡ illegal_at pc }
{
    Fault {
        signal: SigNo::illegal_instruction(),
        code: 1,
        address: pc,
    }
}

/// The fault of a stop for a debugger.
pub fn breakpoint(pc: u64) -> Fault
    ensures { result ≡ breakpoint_at pc }
{
    Fault {
        signal: SigNo::trap(),
        code: 1,
        address: pc,
    }
}

/// The fault of an access to memory.
pub fn fault_of_page(fault: PageFault) -> Fault
    ensures { result ≡ page_fault_of fault }
{
    let signal = SigNo::segmentation_fault();
    match fault {
        PageFault::NotMapped(address) => Fault {
            signal,
            code: 1,
            address,
        },
        PageFault::NoAccess(address) => Fault {
            signal,
            code: 2,
            address,
        },
    }
}

/// The fault of an atomic access to memory.
pub fn fault_of_word(fault: WordFault) -> Fault
    ensures { result ≡ word_fault_of fault }
{
    match fault {
        WordFault::Misaligned(address) => Fault {
            signal: SigNo::bus_error(),
            code: 1,
            address,
        },
        WordFault::Page(fault) => fault_of_page(fault),
    }
}
