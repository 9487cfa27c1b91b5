use crate::signal::SigNo;

/// What an instruction that could not be done tells: the signal, its code, and the address.
///
/// References: sigaction(2), "The siginfo_t argument to a SA_SIGINFO handler".
#[derive(Clone, Copy)]
pub struct Fault {
    pub signal: SigNo,
    pub code: u32,
    pub address: u64,
}
