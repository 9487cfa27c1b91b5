//! A device in a box.

use crate::device::{Device, DeviceFailed};

impl Device for Box<dyn Device + Send> {
    ghost left = { λ boxed. (Device-box boxed).left boxed.value };

    ghost held = { λ boxed. (Device-box boxed).held boxed.value };

    ghost failed_reads = { λ boxed. (Device-box boxed).failed_reads boxed.value };

    ghost failed_writes = { λ boxed. (Device-box boxed).failed_writes boxed.value };

    fn give(&mut self, into: &mut [u8]) -> Result<usize, DeviceFailed> {
        (**self).give(into)
    }

    fn take(&mut self, bytes: &[u8]) -> Result<(), DeviceFailed> {
        (**self).take(bytes)
    }
}
