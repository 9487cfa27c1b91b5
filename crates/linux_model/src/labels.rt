/// What a process does in one moment.
#[derive(Clone, Copy, Debug, PartialEq, Eq)]
pub enum Label {
    /// The thread makes an instruction other than `ecall`, or faults at it.
    Instr(u32),
    /// The thread makes the system call at its `ecall`.
    Call(u32),
    /// The thread takes the signal of this id.
    Take(u32, u64),
    /// 100 ns pass.
    Tick,
}
