//! A run from its core to its end.

ghost use Rattle.std.specs.Prelude.{◌≡◌, ◌≤◌, length, IfErr, IfOk};
ghost use Rattle.dev_board.specs.Seen.{devices_seen};
ghost use Rattle.guest_core.specs.Machine.{Machine};
ghost use Rattle.emu_run.specs.Running.{CoreFinishes, CoreStops, OneLives};
ghost use Rattle.emu_run.specs.Sending.{sent};

use crate::journal::Journal;
use crate::solo::{Halt, Run, run_to_end};
use dev_board::{Board, Device, Devices};
use guest_core::{Core, End};
use std::alloc::Global;

/// A run that came to its end.
#[derive(Drop)]
pub struct Executed<D: Drop> {
    pub end: End,
    /// The last state.
    pub core: Core,
    pub journal: Journal,
    /// Those that no description is left of were let go.
    pub devices: Devices<D>,
}

/// A run that a fault stopped.
#[derive(Drop)]
pub struct Stopped<D: Drop> {
    pub halt: Halt,
    pub journal: Journal,
    pub devices: Devices<D>,
}

/// Makes a core's steps until the process has ended or the budget is spent. What a step writes is handed to its device at
/// once. It costs by the events, at most the budget, and by the bytes that are written.
pub fn execute<D: Device>(
    alloc: Global,
    core: Core,
    budget: u32,
    devices: Devices<D>,
) -> Result<Executed<D>, Stopped<D>>
    requires one { OneLives core }
    requires few { length devices ≤ 8 }
    requires count { length devices ≡ length core.shared.files.devices }
    requires quiet { devices_seen D.left D.held D.failed_reads D.failed_writes devices ≡ sent (devices_seen D.left D.held D.failed_reads D.failed_writes devices) core.shared.files.devices }
    ensures finished { IfOk result (λ f. CoreFinishes core budget (devices_seen D.left D.held D.failed_reads D.failed_writes devices) f.end f.core f.journal (devices_seen D.left D.held D.failed_reads D.failed_writes f.devices)) }
    ensures stopped { IfErr result (λ f. (last : Machine) × CoreStops core budget (devices_seen D.left D.held D.failed_reads D.failed_writes devices) f.halt last f.journal (devices_seen D.left D.held D.failed_reads D.failed_writes f.devices)) }
{
    let mut run = Run {
        core,
        journal: Journal::new(alloc, budget),
        board: Board::new(devices),
    };
    match run_to_end(&mut run) {
        Ok(end) => Ok(Executed {
            end,
            core: run.core,
            journal: run.journal,
            devices: run.board.into_devices(),
        }),
        Err(halt) => Err(Stopped {
            halt,
            journal: run.journal,
            devices: run.board.into_devices(),
        }),
    }
}
