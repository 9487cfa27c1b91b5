//! The run of a program's core: its journal, its schedule, and the devices that are handed what it writes.
//!
//! # Model
//!
//! `execute` makes the steps of a core's one thread until the process has ended or a budget is spent. Each event is noted in
//! a `Journal`, which contracts see as the list of its events. What an event writes to a device is handed to that device at
//! once, and a device whose last description the event closed is let go: its box is dropped.
//!
//! # What the layer above knows
//!
//! The journal's events are a run from the core that was handed in (`RunsFrom` in `specs/Running.antt`), they are those of the
//! schedule (`specs/Schedule.antt`), and the labels of the events are a run of the process machine whose last state is the
//! view of the core's (`specs/Labels.antt`, `specs/View.antt`). What is seen of the devices afterwards is what was seen of
//! them, with all outputs behind it (`sent` in `specs/Sending.antt`). A device that fails stops the run after the event whose
//! output it was handed (`BreaksOff`).
//!
//! # Cost
//!
//! By the events, and by the bytes that are written. An event that is plain computes and no more.
//!
//! # Sources
//!
//! The project's own.
#![tactic(auto)]

mod executing;
mod journal;
mod simulation;
mod solo;

pub use executing::{Executed, Stopped, execute};
pub use journal::{Entry, Journal};
pub use simulation::every_run_is_a_process_run;
pub use solo::Halt;
