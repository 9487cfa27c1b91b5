//! The schedule of `solo`: one step after another, each followed by what it wrote.

ghost use Rattle.dev_board.specs.Seen.{devices_seen};
ghost use Rattle.file_table.specs.State.{OnlyDie, outputs_of};
ghost use Rattle.std.specs.Prelude.{◌≡◌, ◌≤◌, ◌<◌, ◌+◌, ◌^◌, ◌++◌, ◌∷◌, [], ℕ, None, Some, length, slice_index, slice_index_or, OnOk, OnErr, IfOk, IfErr, IfSome, IfNone};
ghost use Rattle.guest_core.specs.Event.{event_after};
ghost use Rattle.guest_core.specs.Machine.{first_thread};
ghost use Rattle.host_calls.specs.Owes.{Grows};
ghost use Rattle.emu_run.specs.Running.{CoreFinishes, CoreStops, OneLives};
ghost use Rattle.emu_run.specs.Sending.{sent};
ghost use Rattle.emu_run.specs.Turning.{Halted, KeepsSent, Stepped, TookPart, WentAhead, handed, without_dead};

use crate::journal::Journal;
use dev_board::{Board, Device, Failed};
use guest_core::{Core, CoreRefusal, End, Event, FIRST_THREAD};
use std::alloc::AllocError;

/// A run: the core, the events that it made, and the devices, which hold what the core wrote.
#[derive(Drop)]
pub struct Run<D: Drop> {
    pub core: Core,
    pub journal: Journal,
    pub board: Board<D>,
}

/// Why a run stopped before its end.
#[derive(Clone, Copy, Debug, PartialEq, Eq)]
pub enum Halt {
    /// A write to this device failed.
    Device(usize),
    /// Want of memory.
    Memory,
}

/// The most devices that a run has.
const MOST_DEVICES: usize = 8;

/// Makes the next step and notes it. After want of memory nothing was made.
#[tactic(auto, using(crate::proofs::ScheduleFacts::one_lives, crate::proofs::ScheduleFacts::step_one))]
fn advance(core: &mut Core, journal: &mut Journal) -> Result<(), AllocError>
    requires lives { core.old.end ≡ None }
    requires one { OneLives core.old }
    requires count { length journal.old.events + 1 < 2 ^ 32 }
    ensures event { OnOk result (event_after core.old (Event.Step first_thread) ≡ Some core.new) }
    ensures noted { OnOk result (journal.new.events ≡ journal.old.events ++ Event.Step first_thread ∷ []) }
    ensures outputs { OnOk result (Grows (outputs_of core.old.shared.files) (outputs_of core.new.shared.files)) }
    ensures die { OnOk result (OnlyDie core.old.shared.files.devices core.new.shared.files.devices) }
    ensures one { OneLives core.new }
    ensures stays { OnErr result (core.new ≡ core.old) }
    ensures unnoted { OnErr result (journal.new.events ≡ journal.old.events) }
    ensures budget { journal.new.budget ≡ journal.old.budget }
{
    journal.reserve()?;
    match core.event(&Event::Step(FIRST_THREAD)) {
        Ok(()) => {
            journal.note(FIRST_THREAD, 1);
            Ok(())
        }
        Err(CoreRefusal::Memory) => Err(AllocError),
        Err(CoreRefusal::NotNow) => unreachable!(),
    }
}

/// The lengths of the outputs.
fn lengths(core: &Core) -> [usize; MOST_DEVICES]
    requires { length (outputs_of core.now.shared.files) ≤ 8 }
    ensures { (device : ℕ) → device < length (outputs_of core.now.shared.files)
        → slice_index result device ≡ length (slice_index_or (outputs_of core.now.shared.files) device []) }
{
    let mut lengths = [0; MOST_DEVICES];
    for device in 0..core.devices() {
        lengths[device] = core.output(device).len();
    }
    lengths
}

/// The first device whose output is longer than it was.
fn longer(core: &Core, before: &[usize; MOST_DEVICES]) -> Option<usize>
    requires { length (outputs_of core.now.shared.files) ≤ 8 }
    ensures within { IfSome result (λ device. device < length (outputs_of core.now.shared.files)) }
    ensures longer { IfSome result (λ device. slice_index before.now device < length (slice_index_or (outputs_of core.now.shared.files) device [])) }
    ensures none { IfNone result ((device : ℕ) → device < length (outputs_of core.now.shared.files)
        → length (slice_index_or (outputs_of core.now.shared.files) device []) ≤ slice_index before.now device) }
{
    for device in 0..core.devices() {
        if before[device] < core.output(device).len() {
            return Some(device);
        }
    }
    None
}

/// Makes steps that make an instruction and nothing else, at most `limit`, as far as they go, and notes them at once. So
/// nothing is written, and no device is closed. After want of memory nothing was made.
fn go_ahead<D: Device>(run: &mut Run<D>, limit: u32) -> Result<(), AllocError>
    requires { length run.old.journal.events + limit < 2 ^ 32 }
    ensures { WentAhead run.old run.new limit }
{
    run.journal.reserve()?;
    let steps = run.core.run_on(FIRST_THREAD, limit);
    run.journal.note(FIRST_THREAD, steps);
    Ok(())
}

/// Lets all devices go that live no more.
fn let_go<D: Device>(board: &mut Board<D>, core: &Core)
    ensures { board.new ≡ without_dead board.old core.now.shared.files.devices }
{
    for device in 0..core.devices() {
        if !core.live(device) {
            board.drop_device(device);
        }
    }
}

/// Hands bytes to a device, if it is there.
fn hand<D: Device>(board: &mut Board<D>, device: usize, bytes: &[u8]) -> Result<(), Failed>
    ensures all { OnOk result (devices_seen D.left D.held D.failed_reads D.failed_writes board.new ≡ handed device bytes.now (devices_seen D.left D.held D.failed_reads D.failed_writes board.old)) }
    ensures part { OnErr result (TookPart device bytes.now (devices_seen D.left D.held D.failed_reads D.failed_writes board.old) (devices_seen D.left D.held D.failed_reads D.failed_writes board.new)) }
{
    if board.live(device) {
        board.pump_out(device, bytes)
    } else {
        Ok(())
    }
}

/// Makes a step, lets the devices go that it closed, and hands what it wrote to its device.
fn turn<D: Device>(run: &mut Run<D>) -> Result<(), Halt>
    requires lives { run.old.core.end ≡ None }
    requires one { OneLives run.old.core }
    requires count { length run.old.journal.events + 1 < 2 ^ 32 }
    requires few { length (outputs_of run.old.core.shared.files) ≤ 8 }
    ensures one { OneLives run.new.core }
    ensures stepped { OnOk result (Stepped run.old run.new) }
    ensures sent { OnOk result (KeepsSent run.old.core.shared.files.devices run.new.core.shared.files.devices (devices_seen D.left D.held D.failed_reads D.failed_writes run.old.board) (devices_seen D.left D.held D.failed_reads D.failed_writes run.new.board)) }
    ensures halted { IfErr result (λ halt. Halted halt run.old run.new (devices_seen D.left D.held D.failed_reads D.failed_writes run.old.board) (devices_seen D.left D.held D.failed_reads D.failed_writes run.new.board)) }
    ensures devices { length run.new.core.shared.files.devices ≡ length run.old.core.shared.files.devices }
    ensures budget { run.new.journal.budget ≡ run.old.journal.budget }
{
    let before = lengths(&run.core);
    match advance(&mut run.core, &mut run.journal) {
        Ok(()) => {}
        Err(_) => return Err(Halt::Memory),
    }
    let_go(&mut run.board, &run.core);
    match longer(&run.core, &before) {
        None => Ok(()),
        Some(device) => {
            let fresh = &run.core.output(device)[before[device]..];
            match hand(&mut run.board, device, fresh) {
                Ok(()) => Ok(()),
                Err(_) => Err(Halt::Device(device)),
            }
        }
    }
}

/// Makes steps until the process has ended or the budget is spent.
pub fn run_to_end<D: Device>(run: &mut Run<D>) -> Result<End, Halt>
    requires fresh { run.old.journal.events ≡ [] }
    requires one { OneLives run.old.core }
    requires few { length run.old.core.shared.files.devices ≤ 8 }
    requires count { length run.old.board ≡ length run.old.core.shared.files.devices }
    requires quiet { devices_seen D.left D.held D.failed_reads D.failed_writes run.old.board ≡ sent (devices_seen D.left D.held D.failed_reads D.failed_writes run.old.board) run.old.core.shared.files.devices }
    ensures finished { IfOk result (λ end. CoreFinishes run.old.core run.old.journal.budget (devices_seen D.left D.held D.failed_reads D.failed_writes run.old.board) end run.new.core run.new.journal (devices_seen D.left D.held D.failed_reads D.failed_writes run.new.board)) }
    ensures stopped { IfErr result (λ halt. CoreStops run.old.core run.old.journal.budget (devices_seen D.left D.held D.failed_reads D.failed_writes run.old.board) halt run.new.core run.new.journal (devices_seen D.left D.held D.failed_reads D.failed_writes run.new.board)) }
{
    for _ in 0..run.journal.budget() {
        if let Some(end) = run.core.ended() {
            return Ok(end);
        }
        let left = run.journal.budget() - run.journal.count();
        if left == 0 {
            return Ok(End::Budget);
        }
        // One step is left for the turn.
        match go_ahead(run, left - 1) {
            Ok(()) => {}
            Err(_) => return Err(Halt::Memory),
        }
        match turn(run) {
            Ok(()) => {}
            Err(halt) => return Err(halt),
        }
    }
    match run.core.ended() {
        Some(end) => Ok(end),
        None => Ok(End::Budget),
    }
}
