//! How the work ended.

ghost use Rattle.std.specs.Prelude.{◌≡◌};
ghost use Rattle.emu_top.specs.Solo.{end_of, status_of};

use guest_core::End as ProcessEnd;
use isa_step::SigNo;

/// How the work ended.
#[derive(Clone, Copy)]
pub enum End {
    /// The process ended by itself, with this code.
    Exit(u8),
    /// A signal ended the process.
    Killed(SigNo),
    /// The process goes on, and the budget of events is spent.
    Budget,
    /// There was no process: what was asked for was made.
    Done,
}

impl End {
    /// The status with which the program ends.
    pub fn status(&self) -> u8
        ensures { result ≡ status_of self.now }
    {
        match *self {
            End::Exit(code) => code,
            End::Killed(signal) => 128 + signal.number(),
            End::Budget => 75,
            End::Done => 0,
        }
    }
}

/// The end of a run, by that of its process.
pub fn of_process(end: &ProcessEnd) -> End
    ensures { result ≡ end_of end.now }
{
    match *end {
        ProcessEnd::Exit(code) => End::Exit(code),
        ProcessEnd::Killed(signal) => End::Killed(signal),
        ProcessEnd::Budget => End::Budget,
    }
}
