//! What objects outside the program tell of themselves, and how a fault of one shows.
//!
//! # Model
//!
//! An object may tell what it holds or has left, and counts its faults: `HasCause` says that a call fails only where its
//! count rose. `Failing` is the list of the calls that an object in memory is to fail.
//!
//! # What the layer above knows
//!
//! The definitions of `specs/Told.antt`, which the contracts of folders, devices and sinks cite.
//!
//! # Sources
//!
//! The project's own.
#![tactic(auto)]

mod failing;

pub use failing::Failing;
