/// Where a thread stands in the loop that makes its instructions and calls.
#[derive(Clone, Copy, Debug, PartialEq, Eq)]
pub enum Place {
    /// Between two instructions.
    Loop,
    /// At an `ecall`, before the check of the flag.
    Start,
    /// Behind the check and before the host.
    Window,
    /// Behind the host, with the call's answer.
    Done(i64),
}
