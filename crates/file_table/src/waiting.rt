//! Whether a call would wait, asked without making it.

ghost use Rattle.std.specs.Prelude.{◌≡◌, ℕ, List, length};
ghost use Rattle.file_table.specs.Moving.{read, write};
ghost use Rattle.file_table.specs.Waits.{given_waits, gives_later, is_wait, read_waits, takes_later, write_waits};

use crate::fault::FileFault;
use crate::files::Files;
use crate::moving::{can_read, can_write, is_ready, never_waits, takes};
use crate::state::{Description, Target};

impl Files {
    /// Whether `read` into a buffer of so many bytes would wait: nothing is there and more may come. It takes constant time.
    ///
    /// References: read(2), pipe(7).
    pub fn read_waits(&self, fd: u64, size: u64) -> bool
        ensures { result ≡ is_wait (read fd size self.now) }
    {
        self.is_read_late(fd, size)
    }

    #[tactic(auto, unfolding(crate::specs::Waits::read_waits))]
    fn is_read_late(&self, fd: u64, size: u64) -> bool
        ensures { result ≡ read_waits fd size self.now }
    {
        match self.open_as(fd) {
            Some((_, it)) => can_read(it.flags) && self.gives_later(it, size),
            None => false,
        }
    }

    fn gives_later(&self, it: Description, size: u64) -> bool
        ensures { result ≡ gives_later it.target it.flags size self.now }
    {
        match it.target {
            Target::Node(_) => false,
            Target::Device(device) => match self.devices.get(device) {
                Some(device) => {
                    let count = device.input.len() as u64;
                    waits_for_bytes(size, count, !device.ended, it.flags)
                }
                None => waits_for_bytes(size, 0, true, it.flags),
            },
            Target::Pipe { pipe, .. } => match self.pipes.get(pipe) {
                Some(Some(pipe)) => {
                    waits_for_bytes(size, pipe.len() as u64, pipe.writer, it.flags)
                }
                Some(None) | None => false,
            },
        }
    }

    /// Whether `write` of so many bytes would wait: they must go whole and don't fit, or some of them don't. It takes constant
    /// time.
    ///
    /// References: write(2), pipe(7).
    pub fn write_waits(&self, fd: u64, size: u64) -> bool
        ensures { (bytes : List ℕ) → length bytes ≡ size → is_wait (write fd bytes self.now) ≡ result }
    {
        self.is_write_late(fd, size)
    }

    #[tactic(auto, unfolding(crate::specs::Waits::write_waits))]
    fn is_write_late(&self, fd: u64, size: u64) -> bool
        ensures { result ≡ write_waits fd size self.now }
    {
        match self.open_as(fd) {
            Some((_, it)) => can_write(it.flags) && self.takes_later(it, size),
            None => false,
        }
    }

    fn takes_later(&self, it: Description, size: u64) -> bool
        ensures { result ≡ takes_later it.target it.flags size self.now }
    {
        match it.target {
            Target::Node(_) | Target::Device(_) => false,
            Target::Pipe { pipe, .. } => match self.pipes.get(pipe) {
                Some(Some(pipe)) => match takes(pipe, it.flags, size as usize) {
                    Err(FileFault::Block) => true,
                    Ok(_) | Err(_) => false,
                },
                Some(None) | None => false,
            },
        }
    }
}

/// Whether a read of so many bytes waits, where so many are there.
fn waits_for_bytes(size: u64, count: u64, more: bool, flags: u64) -> bool
    ensures { result ≡ given_waits more count flags size }
{
    !is_ready(size as usize, count as usize, more) && !never_waits(flags)
}
