ghost use Rattle.std.specs.Prelude.{◌≡◌, ◌+◌, [], Some, drop};

use crate::device::{Device, DeviceFailed};
use le_fields::Bytes;
use std::alloc::Global;
use told::Failing;

/// A device in memory, which tells what it has left and what it holds. It fails at the gives and takes of the numbers
/// that it is given; a take that fails so takes the first half of its bytes. A take also fails where memory is wanting, and
/// then takes nothing. Each call costs the bytes that it moves, and the number of the calls that are to fail.
#[derive(Drop)]
pub struct MemDevice {
    input: Vec<u8>,
    given: usize,
    held: Bytes,
    failing_gives: Failing,
    failing_takes: Failing,
    failed_reads: u64,
    failed_writes: u64,
}

impl MemDevice {
    /// A device that holds nothing and gives these bytes. The first give has the number 0, and so has the first take. It
    /// takes constant time.
    pub fn new(
        alloc: Global,
        input: Vec<u8>,
        failing_gives: Vec<u64>,
        failing_takes: Vec<u64>,
    ) -> MemDevice
        ensures left { drop result.given result.input.items ≡ input.items }
        ensures empty { result.held ≡ [] }
        ensures gives { result.failing_gives.numbers ≡ failing_gives }
        ensures takes { result.failing_takes.numbers ≡ failing_takes }
        ensures reads { result.failed_reads ≡ 0 }
        ensures writes { result.failed_writes ≡ 0 }
    {
        MemDevice {
            input,
            given: 0,
            held: Bytes::new(alloc),
            failing_gives: Failing::new(failing_gives),
            failing_takes: Failing::new(failing_takes),
            failed_reads: 0,
            failed_writes: 0,
        }
    }

    /// What it holds. It takes constant time.
    pub fn contents(&self) -> &[u8]
        ensures { result.now ≡ self.now.held }
    {
        self.held.as_slice()
    }
}

impl Device for MemDevice {
    ghost left = { λ device. Some (drop device.given device.input.items) };

    ghost held = { λ device. Some device.held };

    ghost failed_reads = { λ device. device.failed_reads };

    ghost failed_writes = { λ device. device.failed_writes };

    fn give(&mut self, into: &mut [u8]) -> Result<usize, DeviceFailed> {
        if self.failing_gives.next() {
            self.failed_reads = self.failed_reads.saturating_add(1);
            return Err(DeviceFailed);
        }
        if self.input.len() < self.given {
            return Ok(0);
        }
        let rest = &self.input[self.given..];
        let count = rest.len().min(into.len());
        into[..count].copy_from_slice(&rest[..count]);
        self.given += count;
        Ok(count)
    }

    fn take(&mut self, bytes: &[u8]) -> Result<(), DeviceFailed> {
        let fails = self.failing_takes.next();
        let count = if fails { bytes.len() / 2 } else { bytes.len() };
        let taken = self.held.extend_from_slice(&bytes[..count]).is_ok();
        if fails || !taken {
            self.failed_writes = self.failed_writes.saturating_add(1);
            return Err(DeviceFailed);
        }
        Ok(())
    }
}
