ghost use Rattle.std.specs.Prelude.{◌≡◌, ◌≤◌};

use std::marker::Model;

/// A signal's number, from 1 to 64.
#[derive(Clone, Copy)]
pub struct SigNo {
    number: u8,
}

impl Model for SigNo {
    ghost use Rattle.std.specs.Prelude.{ℕ, ◌≤◌};

    ghost Value = { ℕ };

    ghost view = { λ signal. signal.number };

    ghost invariant = { λ signal. (1 ≤ signal.number) × (signal.number ≤ 64) };

    ghost inverse = { λ n. record { number = n } };
}

impl SigNo {
    /// The signal of an illegal instruction.
    ///
    /// References: signal(7).
    pub fn illegal_instruction() -> SigNo
        ensures { result ≡ 4 }
    {
        SigNo { number: 4 }
    }

    /// The signal of an invalid memory reference.
    ///
    /// References: signal(7).
    pub fn segmentation_fault() -> SigNo
        ensures { result ≡ 11 }
    {
        SigNo { number: 11 }
    }

    /// The signal of a stop for a debugger.
    ///
    /// References: signal(7).
    pub fn trap() -> SigNo
        ensures { result ≡ 5 }
    {
        SigNo { number: 5 }
    }

    /// The signal of a bus error.
    ///
    /// References: signal(7).
    pub fn bus_error() -> SigNo
        ensures { result ≡ 7 }
    {
        SigNo { number: 7 }
    }

    pub fn number(self) -> u8
        ensures value { result ≡ self }
        ensures least { 1 ≤ self }
        ensures most { self ≤ 64 }
    {
        self.number
    }
}
