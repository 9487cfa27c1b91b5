ghost use Rattle.std.specs.Prelude.{◌≡◌};
ghost use Rattle.guest_core.specs.Call.{answered};

use isa_exec::Regs;

/// What a process has of a thread.
#[derive(Clone, Copy)]
pub struct Task {
    /// 1000 for the first thread of a process.
    pub id: u32,
    pub regs: Regs,
}

impl Task {
    /// The answer of a call reaches the registers.
    #[tactic(auto, unfolding(guest_core::specs::Call::answered))]
    pub(crate) fn answer(&mut self, answer: i64)
        ensures { self.new ≡ record self.old { regs = answered answer self.old.regs } }
    {
        let next = self.regs.behind(4);
        self.regs.set_register(10, answer.cast_unsigned());
        self.regs.go_on_at(next);
    }
}
