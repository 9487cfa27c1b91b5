ghost use Rattle.std.specs.Prelude.{◌≡◌};
ghost use Rattle.time_line.specs.Line.{is_of, same};

/// Whose deadline it is.
#[derive(Clone, Copy, Debug, PartialEq, Eq)]
pub enum Timer {
    /// A thread's that waits, by its id.
    Thread(u32),
    /// The process's, which sends it a signal.
    Alarm,
}

/// A deadline that stands.
#[derive(Clone, Copy, Debug, PartialEq, Eq)]
pub struct Deadline {
    pub who: Timer,
    /// In nanoseconds of the clock.
    pub at: u64,
}

/// Whether two timers are the same.
fn is_same(one: Timer, other: Timer) -> bool
    ensures { result ≡ same one other }
{
    match one {
        Timer::Thread(thread) => match other {
            Timer::Thread(second) => thread == second,
            Timer::Alarm => false,
        },
        Timer::Alarm => match other {
            Timer::Thread(_) => false,
            Timer::Alarm => true,
        },
    }
}

/// Whether a deadline is a timer's.
pub(crate) fn is_of(deadline: &Deadline, who: Timer) -> bool
    ensures { result ≡ is_of who deadline.now }
{
    is_same(deadline.who, who)
}
