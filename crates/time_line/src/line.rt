ghost use Rattle.std.specs.Prelude.{◌≡◌, [], None, Some, OnOk, OnErr, if◌then◌else◌};
ghost use Rattle.time_line.specs.declared.timer.Timer.{Timer};
ghost use Rattle.time_line.specs.Line.{cleared, deadline, least, same, set_to};
ghost use Rattle.time_line.specs.Sound.{IsLeast, IsSound};

use crate::deadlines::{deadline_in, make_room, put, take_out};
use crate::timer::{Deadline, Timer};
use std::alloc::{AllocError, Global};
use std::marker::Model;

/// The deadlines that stand, which contracts see as a list that rises by their times.
///
/// References: clock_nanosleep(2), setitimer(2).
#[derive(Drop)]
pub struct TimeLine {
    deadlines: Vec<Deadline>,
}

impl Model for TimeLine {
    ghost use Rattle.std.specs.Prelude.{List};
    ghost use Rattle.time_line.specs.declared.timer.Deadline.{Deadline};
    ghost use Rattle.time_line.specs.Sound.{IsSound};

    ghost Value = { List Deadline };

    ghost view = { λ line. line.deadlines.items };

    ghost invariant = { λ line. IsSound line.deadlines.items };
}

impl TimeLine {
    /// No timer has a deadline. It takes no memory.
    pub fn new(alloc: Global) -> TimeLine
        ensures { result ≡ [] }
    {
        TimeLine {
            deadlines: Vec::new(alloc),
        }
    }

    /// A timer's deadline, if it has one. Its contract also tells what every line keeps. It costs by the number of deadlines.
    pub fn deadline(&self, who: Timer) -> Option<u64>
        ensures deadline { result ≡ deadline who self.now }
        ensures sound { IsSound self.now }
    {
        deadline_in(self.deadlines.as_slice(), who)
    }

    /// The least of all deadlines, none exactly where no timer has one. It takes constant time.
    #[tactic(auto, using(crate::proofs::SoundFacts::least_of))]
    pub fn least(&self) -> Option<u64>
        ensures least { result ≡ least self.now }
        ensures lowest { IsLeast result self.now }
    {
        match self.deadlines.first() {
            Some(first) => Some(first.at),
            None => None,
        }
    }

    /// Gives a timer a deadline, in the place of the one that it has. It costs by the number of deadlines. Where memory is
    /// wanting, which it never is for a timer that has a deadline, all stays as it is.
    ///
    /// References: setitimer(2).
    pub fn set(&mut self, who: Timer, at: u64) -> Result<(), AllocError>
        ensures ok { OnOk result (self.new ≡ set_to who at self.old) }
        ensures err { OnErr result (self.new ≡ self.old) }
        ensures memory { OnErr result (deadline who self.old ≡ None) }
        ensures deadlines { OnOk result ((other : Timer) → deadline other self.new ≡ (if same who other then Some at else deadline other self.old)) }
    {
        make_room(&mut self.deadlines, who)?;
        take_out(&mut self.deadlines, who);
        put(&mut self.deadlines, Deadline { who, at });
        Ok(())
    }

    /// Takes a timer's deadline away. Where it has none, nothing changes. It costs by the number of deadlines.
    pub fn clear(&mut self, who: Timer)
        ensures cleared { self.new ≡ cleared who self.old }
        ensures deadlines { (other : Timer) → deadline other self.new ≡ (if same who other then None else deadline other self.old) }
    {
        take_out(&mut self.deadlines, who);
    }
}
