use isa_step::SigNo;

/// How a run ended.
#[derive(Clone, Copy)]
pub enum End {
    /// The process ended by itself, with this code.
    Exit(u8),
    /// A signal ended the process.
    Killed(SigNo),
    /// The process goes on, and the budget of events is spent.
    Budget,
}
