ghost use Rattle.std.specs.Prelude.{◌≡◌, ◌<◌, ◌+◌, ◌%◌, ◌^◌};
ghost use Rattle.isa_exec.specs.Registers.{behind, going_on_at, starting_at, with_register};
ghost use Rattle.isa_exec.specs.Registers.{register as value_of};

use std::marker::Model;

/// The registers of a thread: pc, which is the address of the next instruction, and the integer registers, of which register
/// 0 holds 0. Contracts see them as `Registers`.
#[derive(Clone, Copy)]
pub struct Regs {
    pc: u64,
    x: [u64; 32],
}

impl Model for Regs {
    ghost use Rattle.std.specs.Prelude.{◌≡◌, slice_index};
    ghost use Rattle.isa_exec.specs.Registers.{Registers};

    ghost Value = { Registers };

    ghost view = { λ regs. record { pc = regs.pc; x = regs.x } };

    ghost invariant = { λ regs. slice_index regs.x 0 ≡ 0 };

    ghost inverse = { λ regs. record { pc = regs.pc; x = regs.x } };
}

impl Regs {
    /// A program begins at the address, with all integer registers 0.
    pub fn starting_at(address: u64) -> Regs
        ensures { result ≡ starting_at address }
    {
        Regs {
            pc: address,
            x: [0; 32],
        }
    }

    /// The address of the next instruction.
    #[inline(always)]
    pub fn pc(&self) -> u64
        ensures { result ≡ self.now.pc }
    {
        self.pc
    }

    /// What an integer register holds, 0 for register 0.
    #[inline]
    pub fn register(&self, number: u8) -> u64
        requires { number < 32 }
        ensures value { result ≡ value_of self.now number }
        ensures zero { number ≡ 0 → result ≡ 0 }
    {
        self.x[number as usize]
    }

    /// A write to register 0 is dropped.
    #[inline]
    #[tactic(auto, unfolding(crate::specs::Registers::with_register))]
    pub fn set_register(&mut self, number: u8, value: u64)
        requires { number < 32 }
        ensures { self.new ≡ with_register number value self.old }
    {
        if number != 0 {
            self.x[number as usize] = value;
        }
    }

    /// The program goes on at the address.
    #[inline]
    #[tactic(auto, unfolding(crate::specs::Registers::going_on_at))]
    pub fn go_on_at(&mut self, address: u64)
        ensures { self.new ≡ going_on_at address self.old }
    {
        self.pc = address;
    }

    /// The address that is `size` bytes behind pc, modulo 2^64.
    #[inline]
    pub fn behind(&self, size: u64) -> u64
        ensures { result ≡ behind size self.now }
    {
        self.pc.wrapping_add(size)
    }
}
