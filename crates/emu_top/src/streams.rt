//! The standard streams as devices and as a sink. They tell nothing of what they hold or have left.

ghost use Rattle.std.specs.Prelude.{None, ◌≡◌, ◌≤◌, IfOk, length};

use crate::sink::{Sink, SinkFailed};
use dev_board::{Device, DeviceFailed};
use std::io::{self, Read, Stderr, Stdin, Stdout, Write};

/// One of the standard streams.
#[derive(Clone, Copy)]
pub enum Stream {
    Input(Stdin),
    Output(Stdout),
    Error(Stderr),
}

/// A standard stream as a device. Input takes no bytes, and the others give none.
#[derive(Drop)]
pub struct StreamDevice {
    stream: Stream,
    failed_reads: u64,
    failed_writes: u64,
}

impl StreamDevice {
    pub fn new(stream: Stream) -> StreamDevice
        ensures { result.stream ≡ stream }
    {
        StreamDevice {
            stream,
            failed_reads: 0,
            failed_writes: 0,
        }
    }
}

impl Device for StreamDevice {
    ghost left = { λ device. None };

    ghost held = { λ device. None };

    ghost failed_reads = { λ device. device.failed_reads };

    ghost failed_writes = { λ device. device.failed_writes };

    fn give(&mut self, into: &mut [u8]) -> Result<usize, DeviceFailed> {
        match read(self.stream, into) {
            Ok(count) => Ok(count),
            Err(_) => {
                self.failed_reads = self.failed_reads.saturating_add(1);
                Err(DeviceFailed)
            }
        }
    }

    fn take(&mut self, bytes: &[u8]) -> Result<(), DeviceFailed> {
        match write(self.stream, bytes) {
            Ok(()) => Ok(()),
            Err(_) => {
                self.failed_writes = self.failed_writes.saturating_add(1);
                Err(DeviceFailed)
            }
        }
    }
}

fn read(stream: Stream, into: &mut [u8]) -> io::Result<usize>
    ensures { IfOk result (λ count. count ≤ length into.old) }
{
    match stream {
        Stream::Input(mut input) => input.read(into),
        Stream::Output(_) | Stream::Error(_) => Ok(0),
    }
}

fn write(stream: Stream, bytes: &[u8]) -> io::Result<()> {
    match stream {
        Stream::Input(_) => Err(io::Error::from(io::ErrorKind::Unsupported)),
        Stream::Output(mut output) => output.write_all(bytes),
        Stream::Error(mut error) => error.write_all(bytes),
    }
}

/// Standard error as the sink of the program's own lines.
#[derive(Drop)]
pub struct ErrorSink {
    stream: Stderr,
    failed_writes: u64,
}

impl ErrorSink {
    pub fn new(stream: Stderr) -> ErrorSink {
        ErrorSink {
            stream,
            failed_writes: 0,
        }
    }
}

impl Sink for ErrorSink {
    ghost held = { λ sink. None };

    ghost failed_writes = { λ sink. sink.failed_writes };

    fn put(&mut self, bytes: &[u8]) -> Result<(), SinkFailed> {
        match self.stream.write_all(bytes) {
            Ok(()) => Ok(()),
            Err(_) => {
                self.failed_writes = self.failed_writes.saturating_add(1);
                Err(SinkFailed)
            }
        }
    }
}
