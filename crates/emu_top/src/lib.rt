//! A user-mode emulator of RISC-V Linux programs, over a folder, devices and a sink that are handed in.
//!
//! # Model
//!
//! `top::solo_top` does all that the program `rvuser` does: it takes the words, the folder, the devices and the notes, and
//! answers how the work ended, or why there was none, with the journal of its events.
//!
//! The folder is loaded into a tree; a program runs over a copy of it (`emu_run`), and what it left is written back. Or a
//! source of the folder is assembled, and the program stands in the folder. What is outside is one record (`Outside` in
//! `specs/Outside.antt`): the folder and the notes, each with what it tells and the counts of its faults, and the devices,
//! none where one was let go. A fault is answered only where a count rose.
//!
//! The work is done without a word, and then told: at most one line is put on the notes (`specs/Notes.antt`).
//! Why the program gives up is one table (`specs/Causes.antt`): each cause has its status, its line, and the step of the work
//! at which it comes, with the fault that this step's part answers.
//!
//! # The headline
//!
//! `solo_top` carries it: what it answers and leaves is what the process gives over the journal's events, from the start that
//! the words and the loaded folder give (`specs/Solo.antt`).
#![tactic(auto)]

mod assembly;
pub mod cause;
pub mod ends;
pub mod memory_sink;
mod notes;
mod prepare;
pub mod sink;
pub mod streams;
pub mod top;
