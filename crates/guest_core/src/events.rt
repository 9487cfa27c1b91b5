/// What happens in one moment.
#[derive(Clone, Copy, Debug, PartialEq, Eq)]
pub enum Event {
    /// The thread with this id makes its next step.
    Step(u32),
}
