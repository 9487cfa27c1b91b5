//! Bytes that a call puts into memory.

ghost use Rattle.std.specs.Prelude.{◌≡◌};
ghost use Rattle.host_calls.specs.Answers.{stored};
ghost use Rattle.host_calls.specs.Host.{gives, shared_of};

use crate::host::Host;
use file_tree::Errno;

impl Host {
    /// Puts the bytes into memory and gives the answer; refused with `EFAULT` where their range can't be written whole. It
    /// counts as a store of the thread.
    #[tactic(auto, unfolding(crate::specs::Answers::stored))]
    pub(crate) fn store(&mut self, thread: u32, at: u64, bytes: &[u8], answer: i64) -> i64
        ensures answer { gives result self.new ≡ stored thread at bytes.now answer (shared_of self.old) }
        ensures pending { self.new.pending ≡ self.old.pending }
    {
        if self.pages.copy_in(at, bytes).is_err() {
            return -Errno::EFAULT.code();
        }
        self.held.stored(thread, at, bytes.len() as u64);
        answer
    }
}
