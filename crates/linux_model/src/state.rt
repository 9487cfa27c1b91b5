ghost use Rattle.std.specs.Prelude.{◌≡◌, None, Some, IfOk, OnOk, OnErr, Ok, IsOk, false, MatchBool};
ghost use Rattle.guest_core.specs.Call.{called};
ghost use Rattle.linux_model.specs.Steps.{call_done, makes_call, makes_instruction, takes};
ghost use Rattle.linux_model.specs.Walker.{after, context, process};

use crate::task::Task;
use file_tree::Errno;
use guest_core::{End, asked, call_at_once, ends_process};
use host_calls::{Host, Instance};
use isa_step::{Fault, Made, is_at_call, make_instruction};
use std::alloc::AllocError;

/// What a process has, with one thread.
#[derive(Drop)]
pub struct State {
    pub host: Host,
    pub task: Task,
    pub end: Option<End>,
}

impl State {
    /// Makes an instruction, or answers false where none is allowed. Then, and after want of memory, all is as before.
    #[tactic(auto, unfolding(crate::specs::Steps::makes_instruction))]
    pub fn instruction(&mut self) -> Result<bool, AllocError>
        requires { self.old.end ≡ None }
        ensures made { IfOk result (λ made. MatchBool made
            (makes_instruction (context self.old) ≡ Some (after self.new))
            (makes_instruction (context self.old) ≡ None)) }
        ensures refused { result ≡ Ok false → process self.new ≡ process self.old }
        ensures err { OnErr result (process self.new ≡ process self.old) }
        ensures id { self.new.task.id ≡ self.old.task.id }
        ensures free { makes_instruction (context self.old) ≡ None → IsOk result }
    {
        if self.host.pending.first(self.task.id).is_some() {
            return Ok(false);
        }
        match make_instruction(
            self.task.id,
            &mut self.task.regs,
            &mut self.host.pages,
            &mut self.host.held,
        ) {
            Ok(Made::Done) => Ok(true),
            Ok(Made::Call) => Ok(false),
            Err(fault) => {
                self.host.pending.send_forced(self.task.id, fault)?;
                Ok(true)
            }
        }
    }

    /// Makes a system call, or answers false where none is allowed. Then, and after want of memory, all is as before.
    #[tactic(auto, unfolding(crate::specs::Steps::makes_call))]
    pub fn call(&mut self) -> Result<bool, AllocError>
        requires { self.old.end ≡ None }
        ensures made { IfOk result (λ made. MatchBool made
            (makes_call (context self.old) ≡ Some (after self.new))
            (makes_call (context self.old) ≡ None)) }
        ensures refused { result ≡ Ok false → self.new ≡ self.old }
        ensures err { OnErr result (self.new ≡ self.old) }
        ensures id { self.new.task.id ≡ self.old.task.id }
        ensures free { makes_call (context self.old) ≡ None → IsOk result }
    {
        if self.host.pending.first(self.task.id).is_some()
            || !is_at_call(&self.task.regs, &self.host.pages)
        {
            return Ok(false);
        }
        self.make_call()?;
        Ok(true)
    }

    #[tactic(auto, unfolding(guest_core::specs::Call::called))]
    fn make_call(&mut self) -> Result<(), AllocError>
        requires { self.old.end ≡ None }
        ensures ok { OnOk result (after self.new ≡ call_done (called self.old.task.id self.old.task.regs (context self.old).shared) (context self.old)) }
        ensures err { OnErr result (self.new ≡ self.old) }
        ensures id { self.new.task.id ≡ self.old.task.id }
    {
        let Some(call) = asked(&self.task.regs) else {
            self.host.held.end(self.task.id);
            self.task.answer(-Errno::ENOSYS.code());
            return Ok(());
        };
        if ends_process(call.no) {
            self.host.held.end(self.task.id);
            self.end = Some(End::Exit((call.args[0] % 256) as u8));
            return Ok(());
        }
        let answer = call_at_once(&mut self.host, self.task.id, &call)?;
        self.task.answer(answer);
        Ok(())
    }

    /// Takes the first due signal, or answers false where it is another. Then all is as before.
    #[tactic(auto, unfolding(crate::specs::Steps::takes))]
    pub fn take(&mut self, id: u64) -> bool
        ensures same { self.new.task ≡ self.old.task }
        ensures made { MatchBool result (takes id (context self.old) ≡ Some (after self.new)) (takes id (context self.old) ≡ None) }
        ensures refused { result ≡ false → self.new ≡ self.old }
    {
        match self.host.pending.first(self.task.id) {
            Some(instance) if instance.id == id => {}
            _ => return false,
        }
        match self.host.pending.take_first(self.task.id) {
            Some(Instance { fault, .. }) => {
                let Fault { signal, .. } = fault;
                self.end = Some(End::Killed(signal));
                true
            }
            None => false,
        }
    }
}
