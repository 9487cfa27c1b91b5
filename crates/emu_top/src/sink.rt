ghost use Rattle.std.specs.Prelude.{◌≡◌, ℕ, List, Option, OnOk, OnErr};
ghost use Rattle.told.specs.Told.{more, HasCause, HoldsBeginning};

/// A sink could not take what was put into it.
#[derive(Clone, Copy, Debug, PartialEq, Eq)]
pub struct SinkFailed;

/// Where the program's own lines go.
pub trait Sink {
    /// The bytes that it holds, where it tells them.
    ghost held: { Self → Option (List ℕ) };

    /// How many writes failed. It stands still at the end of 64 bits.
    ghost failed_writes: { Self → ℕ };

    /// Puts all the bytes behind those that it holds; after a failure, a beginning of them.
    fn put(&mut self, bytes: &[u8]) -> Result<(), SinkFailed>
        ensures all { OnOk result (held self.new ≡ more (held self.old) bytes.now) }
        ensures beginning { OnErr result (HoldsBeginning (held self.old) bytes.now (held self.new)) }
        ensures writes { HasCause (failed_writes self.old) (failed_writes self.new) result };
}
