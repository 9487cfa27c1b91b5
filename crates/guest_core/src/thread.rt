use crate::places::Place;
use isa_exec::Regs;

/// What a thread has of its own. What it has noted stands beside the pending signals.
#[derive(Clone, Copy)]
pub struct Thread {
    /// 1000 for the first thread of a process.
    pub id: u32,
    pub regs: Regs,
    pub place: Place,
    /// Set where a signal was noted since the flag was last cleared.
    pub flag: bool,
}
