//! The process machine: a Linux process on which signals act directly.
//!
//! # Model
//!
//! A `ProcessState` is a system of tasks, in the form that the emulator's machine has (`guest_core`): what the system has
//! (`Shared`), of each thread its registers under its id, and the end. It changes by labels: `Instr` makes an instruction of
//! a thread, `Call` its system call at an `ecall`, `Take` takes the first signal that is due to it, and `Tick` lets 100 ns
//! pass. What a thread's label sees is what the system has and that thread alone. `step` gives the state after a label, none
//! where the label isn't allowed, and `follow` carries that over a list. What is seen of a run is what was written to each
//! device, and the end. The walker walks a process of one thread.
//!
//! The effects of instructions, calls and signals are the definitions that the emulator's core cites too. The rest is
//! apart: the process knows no place, flag, window, noted signal or journal.
//!
//! # What the layer above knows
//!
//! The definitions. The walker `follow` is for tests: it is plain, and stands apart from the core's step. It tells the first
//! label that isn't allowed, and want of memory only at one that is.
//!
//! # Sources
//!
//! signal(7), exit_group(2), the manual pages of the calls, and the RISC-V unprivileged manual. The labels are the project's own.
#![tactic(auto)]

mod following;
mod labels;
mod state;
mod task;
mod walker;

pub use following::{FollowFault, follow};
pub use labels::Label;
pub use task::Task;
pub use walker::Process;

#[cfg(test)]
mod tests;
