//! The devices of a run, in their places: things that give bytes and take bytes, of which some may be let go.
//!
//! # Model
//!
//! A device is a trait, `Device`. It may tell what it has left to give and what it holds, each a list of bytes, and it counts
//! its failed reads and its failed writes. The device in memory (`MemDevice`) tells both; it fails at the gives and takes that
//! it is given, and a take that fails takes the first half of its bytes. A box of a device (`Box<dyn Device + Send>`) is a
//! device that tells what the one in it tells.
//!
//! Contracts see `Devices` and `Board` as a list of places: at each a device, or none where it was let go. A device's number
//! is its place, counted from 0, and stays its own: a place is never taken away or filled again.
//!
//! # What the layer above knows
//!
//! `Devices::new` has the devices in their order, with none let go. `pump_in` and `pump_out` change the device that they are
//! about, and no other (`IsChanged` in `specs/Board.antt`). `Given` says what it gave: the first of the bytes that it had left,
//! and none only at their end or into an empty buffer; where it failed, it has left what it had. `Took` says what it took: all
//! the bytes, behind those that it held, or, where it failed, a beginning of them. A give leaves what is held, and a take
//! what is left. Each fails only where the device's count of failed reads or failed writes rose, or stands at its end.
//! `drop_device` leaves none at its place, and all others as they were.
//!
//! What is seen of devices, where all that tells it is gathered, is in `specs/Seen.antt`.
//!
//! # Cost
//!
//! `Devices::new` costs the number of the devices, and no other call of `Devices` or `Board` takes memory. Each of these takes
//! constant time, beside that of the device which it asks, or drops. A call of the device in memory costs the bytes that are
//! moved, and the number of the calls at which it is to fail.
//!
//! # Sources
//!
//! stdin(3), for streams that are read and written. That devices have numbers and are let go, what a device tells, and what
//! stays after a failure, are the project's own.
#![tactic(auto)]

mod board;
mod boxed;
mod device;
mod memory_device;

pub use board::{Board, Devices, Failed};
pub use device::{Device, DeviceFailed};
pub use memory_device::MemDevice;

#[cfg(test)]
mod tests;
