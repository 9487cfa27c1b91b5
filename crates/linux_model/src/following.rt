ghost use Rattle.std.specs.Prelude.{◌≡◌, Some, IfOk, IfErr};
ghost use Rattle.linux_model.specs.Following.{IsStopped};
ghost use Rattle.linux_model.specs.Steps.{follow as followed};

use crate::labels::Label;
use crate::walker::Process;

/// Why labels were not followed.
#[derive(Clone, Copy, Debug, PartialEq, Eq)]
pub enum FollowFault {
    /// The label of this index is the first that is not allowed.
    NotAllowed(usize),
    /// Want of memory.
    Memory,
}

/// The process after the labels, or the index of the first that isn't allowed after those before it.
pub fn follow(start: Process, labels: &[Label]) -> Result<Process, FollowFault>
    ensures ok { IfOk result (λ process. followed (Some start) labels.now ≡ Some process) }
    ensures stopped { IfErr result (IsStopped start labels.now) }
{
    let mut process = start;
    for (index, label) in labels.iter().enumerate() {
        match process.step(label) {
            Ok(true) => {}
            Ok(false) => return Err(FollowFault::NotAllowed(index)),
            Err(_) => return Err(FollowFault::Memory),
        }
    }
    Ok(process)
}
