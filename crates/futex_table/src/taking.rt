//! Waiters that are taken out of a list, or copied to its end.

ghost use Rattle.std.specs.Prelude.{◌≡◌, ◌+◌, ◌-◌, ◌*◌, ◌≤◌, ◌<◌, ◌++◌, [], ◌∷◌, length, map, not, filter, take, vec_len, vec_capacity};
ghost use Rattle.futex_table.specs.Waiters.{first, is_at, is_of, moved, moved_to, others, passes};

use crate::waiter::{Test, Waiter, is_next, is_of, moved_to};

/// Moves all but the first so many that are meant to the front, in their order, and tells how many it passed over.
pub(crate) fn keep_others(waiters: &mut [Waiter], test: Test, count: u32) -> u32
    ensures kept { take (length waiters.old - result) waiters.new ≡ others (passes test) count waiters.old }
    ensures count { result ≡ length (first (passes test) count waiters.old) }
    ensures few { result ≤ length waiters.old }
{
    let mut left = count;
    let mut kept = 0;
    'keeping: for place in 0..waiters.len() {
        let waiter = waiters[place];
        if is_next(&waiter, test, left) {
            left -= 1;
        } else {
            waiters[kept] = waiter;
            kept += 1;
        }
    }
    count - left
}

/// Takes out the first so many that are meant, and tells how many they were.
#[tactic(auto, using(crate::proofs::ListFacts::counted))]
pub(crate) fn take_out(waiters: &mut Vec<Waiter>, test: Test, count: u32) -> u32
    ensures others { waiters.new.items ≡ others (passes test) count waiters.old.items }
    ensures count { result ≡ length (first (passes test) count waiters.old.items) }
    ensures few { length waiters.new.items ≤ length waiters.old.items }
    ensures room { vec_capacity waiters.new ≡ vec_capacity waiters.old }
{
    let length = waiters.len();
    let taken = keep_others(waiters.as_mut_slice(), test, count);
    waiters.truncate(length - taken as usize);
    taken
}

/// Adds a waiter at the end, where there is room.
fn add(waiters: &mut Vec<Waiter>, waiter: Waiter)
    requires { vec_len waiters.old < vec_capacity waiters.old }
    ensures items { waiters.new.items ≡ waiters.old.items ++ waiter ∷ [] }
    ensures len { vec_len waiters.new ≡ vec_len waiters.old + 1 }
    ensures room { vec_capacity waiters.old ≤ vec_capacity waiters.new }
{
    match waiters.push(waiter) {
        Ok(()) => {}
        Err(_) => unreachable!(),
    }
}

/// Copies the first so many that are meant to the end, at another address, and tells how many they were.
pub(crate) fn copy_first(waiters: &mut Vec<Waiter>, test: Test, to: u64, count: u32) -> u32
    requires room { 2 * length waiters.old.items ≤ vec_capacity waiters.old }
    ensures items { waiters.new.items ≡ waiters.old.items ++ map (moved_to to) (first (passes test) count waiters.old.items) }
    ensures count { result ≡ length (first (passes test) count waiters.old.items) }
    ensures room { vec_capacity waiters.old ≤ vec_capacity waiters.new }
{
    let mut left = count;
    'copying: for place in 0..waiters.len() {
        let waiter = waiters[place];
        if is_next(&waiter, test, left) {
            add(waiters, moved_to(waiter, to));
            left -= 1;
        }
    }
    count - left
}

/// Moves the first so many at one address to another, behind all others, and tells how many they were.
#[tactic(auto, using(crate::proofs::ListFacts::others_behind, crate::proofs::ListFacts::moved_many))]
pub(crate) fn move_first(waiters: &mut Vec<Waiter>, from: u64, to: u64, limit: u32) -> u32
    requires room { 2 * length waiters.old.items ≤ vec_capacity waiters.old }
    ensures items { waiters.new.items ≡ moved from to limit waiters.old.items }
    ensures count { result ≡ length (first (is_at from) limit waiters.old.items) }
    ensures few { length waiters.new.items ≡ length waiters.old.items }
    ensures room { vec_capacity waiters.old ≤ vec_capacity waiters.new }
{
    let moved = copy_first(waiters, Test::At(from), to, limit);
    take_out(waiters, Test::At(from), moved);
    moved
}

/// Takes out a thread.
pub(crate) fn take_thread(waiters: &mut Vec<Waiter>, thread: u32)
    ensures others { waiters.new.items ≡ filter (λ waiter. not (is_of thread waiter)) waiters.old.items }
    ensures few { length waiters.new.items ≤ length waiters.old.items }
    ensures room { vec_capacity waiters.new ≡ vec_capacity waiters.old }
{
    waiters.retain(|waiter| !is_of(waiter, thread));
}
