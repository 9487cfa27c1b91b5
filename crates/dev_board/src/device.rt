ghost use Rattle.std.specs.Prelude.{◌≡◌, ◌≤◌, ◌<◌, ℕ, List, Option, Ok, IfOk, OnOk, OnErr, length};
ghost use Rattle.told.specs.Told.{more, HasCause, HoldsBeginning, Gave, HasNone};

/// A device could not do what was asked of it.
#[derive(Clone, Copy, Debug, PartialEq, Eq)]
pub struct DeviceFailed;

/// A thing that the guest writes to and reads from, as a terminal.
pub trait Device: Drop {
    /// The bytes that it still has to give, where it tells them.
    ghost left: { Self → Option (List ℕ) };

    /// The bytes that it holds, where it tells them.
    ghost held: { Self → Option (List ℕ) };

    /// How many reads failed. It stands still at the end of 64 bits.
    ghost failed_reads: { Self → ℕ };

    /// How many writes failed. It stands still at the end of 64 bits.
    ghost failed_writes: { Self → ℕ };

    /// Places the first of the bytes that are left in the buffer, and answers their number. It is 0 only at the end,
    /// or where the buffer is empty. After a failure what is left stays.
    fn give(&mut self, into: &mut [u8]) -> Result<usize, DeviceFailed>
        ensures fits { IfOk result (λ count. count ≤ length into.old) }
        ensures gave { IfOk result (λ count. Gave (left self.old) count into.new (left self.new)) }
        ensures ended { result ≡ Ok 0 → 0 < length into.old → HasNone (left self.old) }
        ensures stays { OnErr result (left self.new ≡ left self.old) }
        ensures held { held self.new ≡ held self.old }
        ensures reads { HasCause (failed_reads self.old) (failed_reads self.new) result }
        ensures writes { failed_writes self.new ≡ failed_writes self.old };

    /// Takes all the bytes behind those that it holds; after a failure, a beginning of them.
    fn take(&mut self, bytes: &[u8]) -> Result<(), DeviceFailed>
        ensures all { OnOk result (held self.new ≡ more (held self.old) bytes.now) }
        ensures beginning { OnErr result (HoldsBeginning (held self.old) bytes.now (held self.new)) }
        ensures left { left self.new ≡ left self.old }
        ensures reads { failed_reads self.new ≡ failed_reads self.old }
        ensures writes { HasCause (failed_writes self.old) (failed_writes self.new) result };
}
