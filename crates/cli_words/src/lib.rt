//! The words of the command line.
//!
//! `solo FOLDER PROGRAM [options] [-- ARGS]`, where the options stand in any order: `--budget N`, `--input NAME` and
//! `--keep`, each at most once, and `--env K=V`, at most 64 times. Or `asm FOLDER SOURCE OUT`, and no more words.
//!
//! FOLDER is a value: a word that isn't empty and has no dash in front. PROGRAM, NAME and SOURCE are files of the folder:
//! values of parts with `/` between them, none of which is empty, `.` or `..`. OUT is a value that has no `/`, and is
//! neither `.` nor `..`.
//!
//! # Model
//!
//! A `solo` is a folder, a program, options in their order, and the guest's words, if a `--` stands before them; an `asm`
//! is a folder, a source and the name of what is made. `specs/Command.antt` says how each is spelled in words, and what it
//! asks for. The words that spell one of them are accepted. Of others the first wrong word is told: the first such that
//! no accepted list begins with the words up to it (`specs/FirstWrong.antt`). A text is the list of its bytes.
//!
//! The layer above knows `read`: the one order that accepted words ask for, or the index of the first wrong word. `laws`
//! says that words spell one command at most, have one first wrong word at most, and never both.
//!
//! The grammar is the project's own.
#![tactic(auto)]

mod grammar;
mod order;
mod reader;
mod tail;
mod word;

pub use grammar::laws;
pub use order::{AsmPlan, Order, Plan, WordsFault};
pub use reader::read;

#[cfg(test)]
mod tests;
