//! The core of the emulator: a machine whose state changes one event at a time.
//!
//! # Model
//!
//! Contracts see a `Core` as a `Machine`: what the system has (`Shared`, of `host_calls`), threads by rising ids, each with its
//! registers, its place, its flag and the signals that it has noted, and the end. A program starts with one thread.
//! `event_after` gives the machine after an event, none where the event isn't enabled; `run` carries that over a list of
//! events. The type `Core` keeps what `Keeps` says of every state.
//!
//! A thread's step is made by the first row that fits (`row_of`), each row a condition and an effect over what the system has
//! and that thread alone (`Context`). An event ends by dropping from what is noted what isn't due any more (`settled`):
//!
//! ```text
//!                    a due signal isn't noted: noted, flag set, Window -> Start
//!
//!                flag clear, ecall            flag clear
//!        Loop ------------------------> Start ----------> Window
//!      ^  ^  |  flag set                  |                  |
//!      |  |  +- noted: taken; else        | flag set         | the host is entered: the answer,
//!      |  |     the flag is cleared       |                  | or the process ends
//!      |  +-------------------------------+                  v
//!      +------------------------------------------------- Done(answer)
//!                 the answer in a0, pc behind the ecall
//! ```
//!
//! Which call is made at the window no row says: a call is `call_at_once`, but for those of the core's own, today
//! `exit_group`.
//!
//! Why there is a window. A handler must run before a call that would wait, and between the last look at the signals and
//! the sleep in the host there is always a moment. First moment: a thread has looked, and no signal is there. Second
//! moment: the signal comes, and the thread goes to sleep with it, until something else wakes it. So the thread looks at its
//! flag (`Start`), and then stands in the window. A signal that is noted there sets it back before the check, and one that comes
//! later meets it inside the host, which cuts its sleep short. Nothing is lost in between.
//!
//! At `Loop` with a clear flag one instruction is made. Its fault sends a forced signal, which the next two steps note
//! and take. Each step takes 100 ns of the clock, which is virtual.
//!
//! # What the layer above knows
//!
//! `start` gives the state in which a program starts (`specs/Start.antt`), or refuses it exactly where its stack's texts or
//! its pages are too many.
//!
//! `Core::event` makes exactly `event_after`, refuses exactly what isn't enabled, and leaves the state after a
//! refusal. Beside the look-up of its thread it takes constant time, but for a call, which costs what `host_calls` says of it,
//! and memory only in a call, or for a fault while another signal is pending (`TakesNoMemory`). While the process lives, each
//! thread that lives can make a step (`live`). Outputs only grow, at most one of them in an event (`Grows`), and the code stays.
//! `Core::run_on` makes many steps that are an instruction's and nothing else, which are a run of as many events.
//!
//! # Sources
//!
//! The System V ABI for the start, signal(7) and exit_group(2). The window between check and host is after the safe system
//! calls of QEMU's linux-user; places, flag, noted signals and virtual time are the project's own.
#![tactic(auto)]

mod calls;
mod ends;
mod events;
mod machine;
mod places;
mod rows;
mod starting;
mod state;
mod thread;

pub use calls::{CallOutcome, asked, call_at_once, ends_process};
pub use ends::End;
pub use events::Event;
pub use machine::{Core, CoreParts, CoreRefusal, FIRST_THREAD};
pub use places::Place;
pub use starting::{StartFault, start};
pub use thread::Thread;

#[cfg(test)]
mod tests;
