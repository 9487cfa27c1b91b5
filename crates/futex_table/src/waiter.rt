ghost use Rattle.std.specs.Prelude.{◌≡◌, ◌&&◌, nat_lt};
ghost use Rattle.futex_table.specs.Waiters.{is_of, moved_to, passes};

/// A thread that waits.
///
/// References: futex(2).
#[derive(Clone, Copy, Debug, PartialEq, Eq)]
pub struct Waiter {
    pub thread: u32,
    /// The address at which it waits.
    pub at: u64,
    /// It is woken by a wake whose bits meet these.
    pub bits: u32,
}

/// Which waiters are meant.
#[derive(Clone, Copy)]
pub(crate) enum Test {
    /// Those at an address.
    At(u64),
    /// Those at an address whose bits meet these.
    Meeting { at: u64, bits: u32 },
}

/// Whether a waiter is one that is meant.
pub(crate) fn passes(waiter: &Waiter, test: Test) -> bool
    ensures { result ≡ passes test waiter.now }
{
    match test {
        Test::At(at) => waiter.at == at,
        Test::Meeting { at, bits } => waiter.at == at && waiter.bits & bits != 0,
    }
}

/// Whether a waiter is the next of the so many first that are meant.
pub(crate) fn is_next(waiter: &Waiter, test: Test, count: u32) -> bool
    ensures { result ≡ (nat_lt 0 count && passes test waiter.now) }
{
    count > 0 && passes(waiter, test)
}

/// Whether a waiter is a thread's.
pub(crate) fn is_of(waiter: &Waiter, thread: u32) -> bool
    ensures { result ≡ is_of thread waiter.now }
{
    waiter.thread == thread
}

/// The waiter at another address.
pub(crate) fn moved_to(waiter: Waiter, to: u64) -> Waiter
    ensures { result ≡ moved_to to waiter }
{
    Waiter {
        thread: waiter.thread,
        at: to,
        bits: waiter.bits,
    }
}
