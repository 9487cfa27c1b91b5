ghost use Rattle.std.specs.Prelude.{◌≡◌, [], Some};

use crate::sink::{Sink, SinkFailed};
use le_fields::Bytes;
use std::alloc::Global;
use told::Failing;

/// A sink in memory, which tells what it holds. It fails at the puts of the numbers that it is given, which put the
/// first half of their bytes.
#[derive(Drop)]
pub struct MemSink {
    held: Bytes,
    failing_puts: Failing,
    failed_writes: u64,
}

impl MemSink {
    /// A sink that holds nothing.
    pub fn new(alloc: Global, failing_puts: Vec<u64>) -> MemSink
        ensures empty { result.held ≡ [] }
        ensures puts { result.failing_puts.numbers ≡ failing_puts }
        ensures failed { result.failed_writes ≡ 0 }
    {
        MemSink {
            held: Bytes::new(alloc),
            failing_puts: Failing::new(failing_puts),
            failed_writes: 0,
        }
    }

    /// What it holds.
    pub fn contents(&self) -> &[u8]
        ensures { result.now ≡ self.now.held }
    {
        self.held.as_slice()
    }
}

impl Sink for MemSink {
    ghost held = { λ sink. Some sink.held };

    ghost failed_writes = { λ sink. sink.failed_writes };

    fn put(&mut self, bytes: &[u8]) -> Result<(), SinkFailed> {
        let fails = self.failing_puts.next();
        let count = if fails { bytes.len() / 2 } else { bytes.len() };
        let put = self.held.extend_from_slice(&bytes[..count]).is_ok();
        if fails || !put {
            self.failed_writes = self.failed_writes.saturating_add(1);
            return Err(SinkFailed);
        }
        Ok(())
    }
}
