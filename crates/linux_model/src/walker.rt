ghost use Rattle.file_table.specs.State.{outputs_of};
ghost use Rattle.std.specs.Prelude.{◌≡◌, ◌↔◌, ◌<◌, [], ◌∷◌, None, Some, map, IsSome, IfSome, IfOk, OnErr, Ok, false, MatchBool, length, slice_index_or};
ghost use Rattle.std.specs.Option.{option_copied, option_map};
ghost use Rattle.guest_core.specs.System.{found};
ghost use Rattle.linux_model.specs.Steps.{step};

use crate::labels::Label;
use crate::state::State;
use crate::task::Task;
use guest_core::{Core, CoreParts, End, FIRST_THREAD};
use isa_exec::Regs;
use std::alloc::AllocError;
use std::marker::Model;

/// A process.
#[derive(Drop)]
pub struct Process {
    state: State,
}

impl Model for Process {
    ghost use Rattle.linux_model.specs.Process.{ProcessState};
    ghost use Rattle.linux_model.specs.Walker.{process as process_of};

    ghost Value = { ProcessState };

    ghost view = { λ process. process_of process.state };
}

impl Process {
    ghost use Rattle.std.specs.Prelude.{ℕ};
    ghost use Rattle.file_table.specs.State.{Files};
    ghost use Rattle.guest_core.specs.Start.{Program, started};
    ghost use Rattle.linux_model.specs.Process.{begun};

    /// The process of a core as `start` left it.
    #[tactic(auto, unfolding(guest_core::specs::Start::started, crate::specs::Process::begun))]
    pub fn of(core: Core) -> Process
        requires { (program : Program) × (files : Files) × (core ≡ started program files) }
        ensures { (program : Program) (files : Files) → core ≡ started program files → result ≡ begun program files }
    {
        let CoreParts { host, threads } = core.into_parts();
        let state = State {
            host,
            task: Task {
                id: FIRST_THREAD,
                regs: threads[0].regs,
            },
            end: None,
        };
        Process { state }
    }

    /// How the process ended, `None` while it lives.
    pub fn ended(&self) -> Option<End>
        ensures { result ≡ self.now.end }
    {
        self.state.end
    }

    /// The registers of a thread, `None` exactly where it does not live.
    pub fn regs(&self, thread: u32) -> Option<&Regs>
        ensures { option_copied result ≡ option_map (λ task. task.regs) (found thread self.now.members) }
    {
        if thread == self.state.task.id {
            Some(&self.state.task.regs)
        } else {
            None
        }
    }

    /// What was written to a device, in order.
    pub fn output(&self, device: usize) -> Option<&[u8]>
        ensures within { IsSome result ↔ (device < length (outputs_of self.now.shared.files)) }
        ensures value { IfSome result (λ output. output.now ≡ slice_index_or (outputs_of self.now.shared.files) device []) }
    {
        if device < self.state.host.files.devices() {
            Some(self.state.host.files.output(device))
        } else {
            None
        }
    }

    /// Makes a step, or answers false exactly where the label is not allowed. Then, and after want of memory, all is as
    /// before.
    #[tactic(auto, unfolding(crate::specs::Steps::step))]
    pub fn step(&mut self, label: &Label) -> Result<bool, AllocError>
        ensures made { IfOk result (λ made. MatchBool made (step self.old label.now ≡ Some self.new) (step self.old label.now ≡ None)) }
        ensures not_allowed { step self.old label.now ≡ None → result ≡ Ok false }
        ensures refused { result ≡ Ok false → self.new ≡ self.old }
        ensures err { OnErr result (self.new ≡ self.old) }
    {
        if self.state.end.is_some() {
            return Ok(false);
        }
        match *label {
            Label::Tick => {
                self.state.host.tick();
                Ok(true)
            }
            Label::Instr(thread) => {
                if thread != self.state.task.id {
                    return Ok(false);
                }
                self.state.instruction()
            }
            Label::Call(thread) => {
                if thread != self.state.task.id {
                    return Ok(false);
                }
                self.state.call()
            }
            Label::Take(thread, id) => {
                if thread != self.state.task.id {
                    return Ok(false);
                }
                Ok(self.state.take(id))
            }
        }
    }
}
