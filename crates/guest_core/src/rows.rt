//! The rows of a thread's step, each a function of what the system has and of that thread.

ghost use Rattle.std.specs.Prelude.{◌≡◌, ◌⊎◌, ◌+◌, ◌<◌, ◌≤◌, ◌^◌, [], true, false, None, Some, IfOk, IfSome, OnOk, OnErr, IsOk};
ghost use Rattle.std.specs.List.{All};
ghost use Rattle.host_calls.specs.Host.{shared_of};
ghost use Rattle.host_calls.specs.Marks.{first_new, noted_of, OthersSettled};
ghost use Rattle.host_calls.specs.Queue.{due, first_of};
ghost use Rattle.guest_core.specs.Rows.{noted, taken, flag_cleared, executed, checked, entered, returned, instruction_of, IsSteady};
ghost use Rattle.guest_core.specs.Ahead.{IsReady};
ghost use Rattle.guest_core.specs.State.{context, goes_on, row_after, settled_after, AllSettled, MadePlain, PlainRun, NotesDue, TakesDue};
ghost use Rattle.isa_step.specs.Instruction.{IsFaultless, IsPlain};
ghost use Rattle.guest_pages.specs.Apart.{IsApart, KeepsCode};
ghost use Rattle.isa_step.specs.Known.{IsKnown};

use crate::calls::{CallOutcome, make_call};
use crate::ends::End;
use crate::places::Place;
use crate::thread::Thread;
use host_calls::{Host, Instance};
use isa_step::{Decoder, Fault, Made, make_instruction, run_plain};
use std::alloc::AllocError;

impl Thread {
    /// The first due signal that isn't noted is noted, where there is one.
    #[tactic(auto, unfolding(crate::specs::Rows::noted))]
    fn note(&mut self, host: &mut Host) -> bool
        ensures noted { result ≡ true → NotesDue (context host.old self.old) (goes_on host.new self.new None) }
        ensures others { result ≡ true → OthersSettled self.old.id host.old.pending host.new.pending }
        ensures none { result ≡ false → first_new (due self.old.id host.old.pending.queue) (noted_of self.old.id host.old.pending) ≡ None }
        ensures stays { result ≡ false → (self.new ≡ self.old) × (host.new ≡ host.old) }
        ensures settled { result ≡ false → AllSettled host.new.pending }
        ensures id { self.new.id ≡ self.old.id }
    {
        if !host.pending.note_first(self.id) {
            return false;
        }
        self.flag = true;
        if self.place == Place::Window {
            self.place = Place::Start;
        }
        true
    }

    /// The first due signal is taken, where there is one, and the process ends.
    #[tactic(auto, unfolding(crate::specs::Rows::taken))]
    fn take(&mut self, host: &mut Host) -> Option<End>
        requires { AllSettled host.old.pending }
        ensures taken { IfSome result (λ end. TakesDue (context host.old self.old) (goes_on host.new self.new (Some end))) }
        ensures others { OthersSettled self.old.id host.old.pending host.new.pending }
        ensures none { result ≡ None → first_of (due self.old.id host.old.pending.queue) ≡ None }
        ensures stays { result ≡ None → host.new ≡ host.old }
        ensures same { self.new ≡ self.old }
    {
        match host.pending.take_first(self.id) {
            Some(instance) => {
                let Instance { fault, .. } = instance;
                let Fault { signal, .. } = fault;
                Some(End::Killed(signal))
            }
            None => None,
        }
    }

    /// The flag is cleared, since nothing is noted.
    #[tactic(auto, unfolding(crate::specs::Rows::flag_cleared))]
    fn clear_flag(&mut self)
        ensures is { (host : Host) → AllSettled host.pending → settled_after self.old.id (flag_cleared (context host self.old)) ≡ goes_on host self.new None }
        ensures id { self.new.id ≡ self.old.id }
    {
        self.flag = false;
    }

    /// The flag is looked at before the window.
    #[tactic(auto, unfolding(crate::specs::Rows::checked))]
    fn check(&mut self)
        ensures is { (host : Host) → AllSettled host.pending → settled_after self.old.id (checked (context host self.old)) ≡ goes_on host self.new None }
        ensures id { self.new.id ≡ self.old.id }
    {
        self.place = if self.flag {
            Place::Loop
        } else {
            Place::Window
        };
    }

    /// The call's answer reaches the registers.
    #[tactic(auto, unfolding(crate::specs::Rows::returned, crate::specs::Call::answered))]
    fn finish(&mut self, answer: i64)
        ensures is { (host : Host) → AllSettled host.pending → settled_after self.old.id (returned answer (context host self.old)) ≡ goes_on host self.new None }
        ensures id { self.new.id ≡ self.old.id }
    {
        let next = self.regs.behind(4);
        self.regs.set_register(10, answer.cast_unsigned());
        self.regs.go_on_at(next);
        self.place = Place::Loop;
    }

    /// An instruction is made, or its fault is sent. Only a fault may want memory.
    #[tactic(auto, unfolding(crate::specs::Rows::executed))]
    fn execute(&mut self, host: &mut Host) -> Result<(), AllocError>
        requires settled { AllSettled host.old.pending }
        ensures ok { OnOk result (settled_after self.old.id (executed (context host.old self.old)) ≡ goes_on host.new self.new None) }
        ensures others { OnOk result (OthersSettled self.old.id host.old.pending host.new.pending) }
        ensures err { OnErr result ((self.new ≡ self.old) × (shared_of host.new ≡ shared_of host.old) × (host.new.pending ≡ host.old.pending)) }
        ensures id { self.new.id ≡ self.old.id }
        ensures steady { IsFaultless (instruction_of (context host.old self.old)) ⊎ ((host.old.pending.queue.next_id + 1 < 2 ^ 64) × (host.old.pending.queue.pending ≡ [])) → IsOk result }
    {
        match make_instruction(self.id, &mut self.regs, &mut host.pages, &mut host.held) {
            Ok(Made::Done) => Ok(()),
            Ok(Made::Call) => {
                self.place = Place::Start;
                Ok(())
            }
            Err(fault) => host.pending.send_forced(self.id, fault),
        }
    }

    /// Whether its next step is an instruction's.
    #[tactic(auto, using(crate::proofs::AheadFacts::ready_is))]
    pub fn is_ready(&self, host: &Host) -> bool
        ensures yes { result ≡ true → IsReady (context host.now self.now) }
        ensures no { IsReady (context host.now self.now) → result ≡ true }
        ensures settled { result ≡ true → AllSettled host.now.pending }
    {
        if self.flag {
            return false;
        }
        match self.place {
            Place::Loop => match host.pending.first_new(self.id) {
                None => true,
                Some(_) => false,
            },
            Place::Start => false,
            Place::Window => false,
            Place::Done(_) => false,
        }
    }

    /// Makes instructions, at most so many, up to the first that asks for a call or faults, and tells how many it made. Time
    /// goes on for all of them at once, since no instruction reads it.
    pub fn go_ahead(&mut self, host: &mut Host, decoder: &mut Decoder, limit: u32) -> u32
        requires apart { IsApart host.old.pages }
        requires known { All (IsKnown host.old.pages) decoder.old }
        ensures most { result ≤ limit }
        ensures ran { PlainRun result host.old self.old host.new self.new }
        ensures stops { result < limit → IsPlain (instruction_of (context host.new self.new)) → ⊥ }
        ensures files { host.new.files ≡ host.old.files }
        ensures code { KeepsCode host.old.pages host.new.pages }
        ensures apart { IsApart host.new.pages }
        ensures known { All (IsKnown host.new.pages) decoder.new }
    {
        let made = run_plain(
            self.id,
            &mut self.regs,
            &mut host.pages,
            &mut host.held,
            decoder,
            limit,
        );
        host.pass(made);
        made
    }

    /// The host is entered.
    #[tactic(auto, unfolding(crate::specs::Rows::entered))]
    fn enter(&mut self, host: &mut Host) -> Result<Option<End>, AllocError>
        requires settled { AllSettled host.old.pending }
        ensures ok { IfOk result (λ end. settled_after self.old.id (entered (context host.old self.old)) ≡ goes_on host.new self.new end) }
        ensures pending { host.new.pending ≡ host.old.pending }
        ensures err { OnErr result ((self.new ≡ self.old) × (host.new ≡ host.old)) }
        ensures id { self.new.id ≡ self.old.id }
    {
        match make_call(host, self.id, &self.regs)? {
            CallOutcome::Answers(answer) => {
                self.place = Place::Done(answer);
                Ok(None)
            }
            CallOutcome::Ends(end) => Ok(Some(end)),
        }
    }

    /// A noted signal is taken; where none is, the flag is cleared.
    #[tactic(auto, using(crate::proofs::RowFits::take_after, crate::proofs::RowFits::clear_after))]
    fn take_noted(&mut self, host: &mut Host) -> Option<End>
        requires settled { AllSettled host.old.pending }
        requires set { self.old.flag ≡ true }
        requires at_loop { self.old.place ≡ Place.Loop }
        requires none_new { first_new (due self.old.id host.old.pending.queue) (noted_of self.old.id host.old.pending) ≡ None }
        ensures done { row_after (context host.old self.old) ≡ Some (goes_on host.new self.new result) }
        ensures others { OthersSettled self.old.id host.old.pending host.new.pending }
        ensures id { self.new.id ≡ self.old.id }
    {
        if !host.pending.any_noted(self.id) {
            self.clear_flag();
            return None;
        }
        self.take(host)
    }

    /// The row that fits is done. It tells the end where the process ends.
    #[tactic(auto, using(crate::proofs::RowFits::note_after, crate::proofs::RowFits::execute_after, crate::proofs::RowFits::check_after, crate::proofs::RowFits::enter_after, crate::proofs::RowFits::return_after, crate::proofs::RowFits::enter_not_steady, crate::proofs::RowFits::execute_steady))]
    pub fn row(&mut self, host: &mut Host) -> Result<Option<End>, AllocError>
        requires clear { self.old.flag ≡ false → noted_of self.old.id host.old.pending ≡ [] }
        ensures ok { IfOk result (λ end. row_after (context host.old self.old) ≡ Some (goes_on host.new self.new end)) }
        ensures others { OnOk result (OthersSettled self.old.id host.old.pending host.new.pending) }
        ensures err { OnErr result ((self.new ≡ self.old) × (shared_of host.new ≡ shared_of host.old) × (host.new.pending ≡ host.old.pending)) }
        ensures id { self.new.id ≡ self.old.id }
        ensures steady { IsSteady (context host.old self.old) → IsOk result }
    {
        if self.note(host) {
            return Ok(None);
        }
        match self.place {
            Place::Loop if self.flag => Ok(self.take_noted(host)),
            Place::Loop => match self.execute(host) {
                Ok(()) => Ok(None),
                Err(_) => Err(AllocError),
            },
            Place::Start => {
                self.check();
                Ok(None)
            }
            Place::Window => self.enter(host),
            Place::Done(answer) => {
                self.finish(answer);
                Ok(None)
            }
        }
    }
}
