//! Time.

ghost use Rattle.std.specs.Prelude.{◌≡◌, IfOk, OnErr};
ghost use Rattle.host_calls.specs.Host.{gives, shared_of};
ghost use Rattle.host_calls.specs.Time.{clock_gettime as tells_time, time_bytes as bytes_of};

use crate::host::Host;
use file_tree::Errno;
use std::alloc::{AllocError, Global};

const NANOSECONDS: u64 = 1_000_000_000;

impl Host {
    /// Tells the time of a clock.
    ///
    /// References: clock_gettime(2).
    #[tactic(auto, unfolding(crate::specs::Time::clock_gettime))]
    pub(crate) fn clock_gettime(
        &mut self,
        thread: u32,
        clock: u64,
        at: u64,
    ) -> Result<i64, AllocError>
        ensures answer { IfOk result (λ answer. gives answer self.new ≡ tells_time thread clock at (shared_of self.old)) }
        ensures pending { self.new.pending ≡ self.old.pending }
        ensures err { OnErr result (self.new ≡ self.old) }
    {
        if clock != 0 && clock != 1 {
            return Ok(-Errno::EINVAL.code());
        }
        let bytes = time_bytes(self.files.alloc(), self.clock)?;
        Ok(self.store(thread, at, bytes.as_slice(), 0))
    }
}

/// Seconds and nanoseconds.
fn time_bytes(alloc: Global, time: u64) -> Result<Vec<u8>, AllocError>
    ensures { IfOk result (λ bytes. bytes.items ≡ bytes_of time) }
{
    let mut bytes = Vec::new(alloc);
    bytes.extend_from_slice(&(time / NANOSECONDS).to_le_bytes())?;
    bytes.extend_from_slice(&(time % NANOSECONDS).to_le_bytes())?;
    Ok(bytes)
}
