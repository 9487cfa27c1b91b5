//! A list of deadlines: looked at, made shorter and longer.

ghost use Rattle.std.specs.Prelude.{◌≡◌, ◌<◌, ◌≤◌, length, insert, vec_capacity, None, OnOk, OnErr};
ghost use Rattle.time_line.specs.Line.{cleared, deadline, placed};

use crate::timer::{Deadline, Timer, is_of};
use std::alloc::AllocError;

/// A timer's deadline.
#[tactic(auto, using(crate::proofs::LineFacts::deadline_here, crate::proofs::LineFacts::deadline_past, crate::proofs::LineFacts::deadline_end))]
pub(crate) fn deadline_in(line: &[Deadline], who: Timer) -> Option<u64>
    ensures { result ≡ deadline who line.now }
{
    'looking: for place in 0..line.len() {
        let deadline = line[place];
        if is_of(&deadline, who) {
            return Some(deadline.at);
        }
    }
    None
}

/// The place of the first that is later than a deadline, behind them all where none is.
#[tactic(auto, using(crate::proofs::LineFacts::placed_here, crate::proofs::LineFacts::placed_past, crate::proofs::LineFacts::placed_end))]
fn place_for(line: &[Deadline], deadline: Deadline) -> usize
    ensures place { placed deadline line.now ≡ insert line.now result deadline }
    ensures within { result ≤ length line.now }
{
    'looking: for place in 0..line.len() {
        if deadline.at < line[place].at {
            return place;
        }
    }
    line.len()
}

/// Puts a deadline at its place, where there is room.
pub(crate) fn put(line: &mut Vec<Deadline>, deadline: Deadline)
    requires { length line.old.items < vec_capacity line.old }
    ensures { line.new.items ≡ placed deadline line.old.items }
{
    let place = place_for(line.as_slice(), deadline);
    match line.insert(place, deadline) {
        Ok(()) => {}
        Err(_) => unreachable!(),
    }
}

/// Takes a timer's deadline out, if it has one.
pub(crate) fn take_out(line: &mut Vec<Deadline>, who: Timer)
    ensures items { line.new.items ≡ cleared who line.old.items }
    ensures room { vec_capacity line.new ≡ vec_capacity line.old }
{
    line.retain(|deadline| !is_of(deadline, who));
}

/// Makes room for a timer's deadline in the place of its old one. It takes memory only where the timer has none.
#[tactic(auto, using(crate::proofs::LineFacts::fewer, crate::proofs::LineFacts::no_more))]
pub(crate) fn make_room(line: &mut Vec<Deadline>, who: Timer) -> Result<(), AllocError>
    ensures items { line.new.items ≡ line.old.items }
    ensures room { OnOk result (length (cleared who line.old.items) < vec_capacity line.new) }
    ensures memory { OnErr result (deadline who line.old.items ≡ None) }
{
    match deadline_in(line.as_slice(), who) {
        Some(_) => Ok(()),
        None => line.reserve(1),
    }
}
