//! The tie between the emulator's machine and the process machine.

ghost use Rattle.std.specs.Prelude.{◌≡◌, List, Some};
ghost use Rattle.guest_core.specs.declared.events.Event.{Event};
ghost use Rattle.guest_core.specs.Event.{run};
ghost use Rattle.guest_core.specs.Kept.{Keeps};
ghost use Rattle.guest_core.specs.Machine.{Machine};
ghost use Rattle.linux_model.specs.Steps.{follow};
ghost use Rattle.emu_run.specs.Labels.{run_labels};
ghost use Rattle.emu_run.specs.View.{view};

/// For every state of the emulator's machine that keeps what is kept, with any number of threads, and every list of events
/// that it can make: the labels of the events are a run of the process machine from the view of that state, and its last
/// state is the view of the emulator's.
#[tactic(auto, using(crate::proofs::EventsSimulate::run_simulates))]
pub fn every_run_is_a_process_run()
    ensures { (first last : Machine) (events : List Event) → Keeps first → run (Some first) events ≡ Some last
        → follow (Some (view first)) (run_labels (Some first) events) ≡ Some (view last) }
{}
