//! Calls that read and write.

ghost use Rattle.std.specs.Prelude.{◌≡◌, ◌<◌, ◌≤◌, ◌≤ℤ◌, ◌++◌, ◌&&◌, ◌||◌, not, nat_lt, pos, IfOk, OnOk, OnErr};
ghost use Rattle.file_table.specs.Moving.{write as writes};
ghost use Rattle.file_table.specs.Pipes.{room};
ghost use Rattle.file_table.specs.Waits.{is_wait};
ghost use Rattle.guest_pages.specs.Faults.{readable};
ghost use Rattle.host_calls.specs.Answers.{ending};
ghost use Rattle.host_calls.specs.Host.{gives, shared_of};
ghost use Rattle.host_calls.specs.Moving.{reading_refusals, write_from, writing_refusals};
ghost use Rattle.host_calls.specs.Pieces.{any_bad, cut, gathered, most_bytes, total};
ghost use Rattle.host_waits.specs.Begun.{any_holds, came};
ghost use Rattle.host_waits.specs.Moving.{counted, goes_in_part, past, read as read_of, reads_or_waits, readv as readv_of, wait_past, with_moved, write as write_of, writes_or_waits, writev as writev_of};
ghost use Rattle.host_waits.specs.Waits.{descriptor};

use crate::beginning::Begun;
use crate::wait::{WaitKind, WaitState};
use call_table::Call;
use file_tree::Errno;
use guest_pages::{READABLE, WRITABLE};
use host_calls::{Host, Piece, is_any_bad, one_piece, vector_of};
use std::alloc::{AllocError, Global};

/// The most bytes that are written to a pipe whole or not at all.
const WHOLE_SIZE: u64 = 4096;

/// The most pieces of a vector.
const MOST_PIECES: u64 = 1024;

/// Reads bytes into memory.
///
/// References: read(2).
#[tactic(auto, unfolding(crate::specs::Moving::read))]
pub(crate) fn read(host: &mut Host, thread: u32, call: &Call) -> Result<Begun, AllocError>
    ensures entered { IfOk result (λ begun. came begun host.new ≡ read_of thread call.now (shared_of host.old)) }
    ensures pending { host.new.pending ≡ host.old.pending }
    ensures err { OnErr result (host.new ≡ host.old) }
{
    let piece = one_piece(call.args[1], call.args[2]);
    read_or_wait(host, thread, call, &[piece], piece.size)
}

/// Reads bytes into pieces of memory.
///
/// References: readv(2).
#[tactic(auto, unfolding(crate::specs::Moving::readv))]
pub(crate) fn readv(host: &mut Host, thread: u32, call: &Call) -> Result<Begun, AllocError>
    ensures entered { IfOk result (λ begun. came begun host.new ≡ readv_of thread call.now (shared_of host.old)) }
    ensures pending { host.new.pending ≡ host.old.pending }
    ensures err { OnErr result (host.new ≡ host.old) }
{
    let [fd, at, count, ..] = call.args;
    if count > MOST_PIECES {
        return Ok(Begun::Answer(-Errno::EINVAL.code()));
    }
    if !host.is_readable(fd) {
        return Ok(Begun::Answer(-Errno::EBADF.code()));
    }
    match vector_of(host.files.alloc(), &host.pages, at, count)? {
        Some(vector) => { read_or_wait(host, thread, call, vector.pieces.as_slice(), vector.total) }
        None => Ok(Begun::Answer(-Errno::EFAULT.code())),
    }
}

/// Reads into pieces that have so many bytes, or waits.
fn read_or_wait(
    host: &mut Host,
    thread: u32,
    call: &Call,
    pieces: &[Piece],
    size: u64,
) -> Result<Begun, AllocError>
    requires total { size ≡ total pieces.now }
    requires few { size ≤ most_bytes }
    ensures entered { IfOk result (λ begun. came begun host.new ≡ reads_or_waits thread call.now pieces.now (shared_of host.old)) }
    ensures pending { host.new.pending ≡ host.old.pending }
    ensures err { OnErr result (host.new ≡ host.old) }
{
    let fd = call.args[0];
    if is_read_refused(host, fd, pieces) || !host.files.read_waits(fd, size) {
        return match host.read_into(thread, fd, pieces, size) {
            Ok(answer) => Ok(Begun::Answer(answer)),
            Err(error) => Err(error),
        };
    }
    match WaitState::for_bytes(host.files.alloc(), WaitKind::Read, call, pieces, size) {
        Ok(wait) => Ok(Begun::Waits(wait)),
        Err(error) => Err(error),
    }
}

/// Whether a read into these pieces is refused.
fn is_read_refused(host: &Host, fd: u64, pieces: &[Piece]) -> bool
    ensures { result ≡ any_holds (reading_refusals fd pieces.now (shared_of host.now)) }
{
    !host.is_readable(fd) || is_any_bad(&host.pages, pieces, WRITABLE)
}

/// Writes bytes of memory.
///
/// References: write(2).
#[tactic(auto, unfolding(crate::specs::Moving::write))]
pub(crate) fn write(host: &mut Host, call: &Call) -> Result<Begun, AllocError>
    ensures entered { IfOk result (λ begun. came begun host.new ≡ write_of call.now (shared_of host.old)) }
    ensures pending { host.new.pending ≡ host.old.pending }
    ensures err { OnErr result (host.new ≡ host.old) }
{
    let piece = one_piece(call.args[1], call.args[2]);
    write_or_wait(host, call, &[piece], piece.size)
}

/// Writes what stands in pieces of memory.
///
/// References: writev(2).
#[tactic(auto, unfolding(crate::specs::Moving::writev))]
pub(crate) fn writev(host: &mut Host, call: &Call) -> Result<Begun, AllocError>
    ensures entered { IfOk result (λ begun. came begun host.new ≡ writev_of call.now (shared_of host.old)) }
    ensures pending { host.new.pending ≡ host.old.pending }
    ensures err { OnErr result (host.new ≡ host.old) }
{
    let [fd, at, count, ..] = call.args;
    if count > MOST_PIECES {
        return Ok(Begun::Answer(-Errno::EINVAL.code()));
    }
    if !host.is_writable(fd) {
        return Ok(Begun::Answer(-Errno::EBADF.code()));
    }
    match vector_of(host.files.alloc(), &host.pages, at, count)? {
        Some(vector) => write_or_wait(host, call, vector.pieces.as_slice(), vector.total),
        None => Ok(Begun::Answer(-Errno::EFAULT.code())),
    }
}

/// Writes from pieces that have so many bytes, or waits.
fn write_or_wait(
    host: &mut Host,
    call: &Call,
    pieces: &[Piece],
    size: u64,
) -> Result<Begun, AllocError>
    requires total { size ≡ total pieces.now }
    requires few { size ≤ most_bytes }
    ensures entered { IfOk result (λ begun. came begun host.new ≡ writes_or_waits call.now pieces.now (shared_of host.old)) }
    ensures pending { host.new.pending ≡ host.old.pending }
    ensures err { OnErr result (host.new ≡ host.old) }
{
    let fd = call.args[0];
    if is_write_refused(host, fd, pieces) || can_write_now(host, fd, pieces, size) {
        return match host.write_from(fd, pieces) {
            Ok(answer) => Ok(Begun::Answer(answer)),
            Err(error) => Err(error),
        };
    }
    match WaitState::for_bytes(host.files.alloc(), WaitKind::Write, call, pieces, size) {
        Ok(wait) => Ok(Begun::Waits(wait)),
        Err(error) => Err(error),
    }
}

/// Whether a write from these pieces is refused.
fn is_write_refused(host: &Host, fd: u64, pieces: &[Piece]) -> bool
    ensures { result ≡ any_holds (writing_refusals fd pieces.now (shared_of host.now)) }
{
    !host.is_writable(fd) || is_any_bad(&host.pages, pieces, READABLE)
}

/// Whether a write of what stands in pieces, which have so many bytes, is ready.
pub(crate) fn can_write_now(host: &Host, fd: u64, pieces: &[Piece], size: u64) -> bool
    requires { size ≡ total pieces.now }
    ensures { result ≡ (not (is_wait (writes fd (gathered host.now.pages pieces.now) host.now.files)) || (nat_lt 0 (room fd host.now.files) && any_bad readable host.now.pages pieces.now)) }
{
    !is_write_late(host, fd, pieces, size)
        || (host.files.room(fd) > 0 && is_any_bad(&host.pages, pieces, READABLE))
}

/// Whether such a write would wait.
fn is_write_late(host: &Host, fd: u64, pieces: &[Piece], size: u64) -> bool
    requires { size ≡ total pieces.now }
    ensures { result ≡ is_wait (writes fd (gathered host.now.pages pieces.now) host.now.files) }
{
    host.files.write_waits(fd, size)
}

/// Writes what is left, and tells how many bytes have gone in all.
pub(crate) fn write_rest(host: &mut Host, wait: &WaitState) -> Result<i64, AllocError>
    ensures answer { IfOk result (λ answer. gives answer host.new ≡ with_moved wait.now.moved (write_from (descriptor wait.now) wait.now.pieces (shared_of host.old))) }
    ensures pending { host.new.pending ≡ host.old.pending }
    ensures err { OnErr result (host.new ≡ host.old) }
{
    let answer = host.write_from(wait.call.args[0], wait.pieces.as_slice())?;
    Ok(counted(wait.moved, answer))
}

/// The bytes that went before count, and where there were some nothing is refused.
fn counted(moved: u64, answer: i64) -> i64
    requires moved { moved ≤ most_bytes }
    requires answer { answer ≤ℤ pos most_bytes }
    ensures { result ≡ counted moved answer }
{
    if answer >= 0 {
        return moved as i64 + answer;
    }
    if moved == 0 {
        return answer;
    }
    moved as i64
}

/// Whether a write goes on in part.
pub(crate) fn goes_in_part(host: &Host, wait: &WaitState) -> bool
    ensures { result ≡ goes_in_part wait.now (shared_of host.now) }
{
    let room = host.files.room(wait.call.args[0]);
    wait.moved + wait.left > WHOLE_SIZE && room > 0 && room < wait.left
}

/// Writes so many bytes of what is left, fewer than all.
pub(crate) fn write_part(
    host: &mut Host,
    thread: u32,
    wait: &mut WaitState,
    room: u64,
) -> Result<(), AllocError>
    requires { room < total wait.old.pieces }
    ensures host { OnOk result (shared_of host.new ≡ (ending thread (write_from (descriptor wait.old) (cut room wait.old.pieces) (shared_of host.old))).shared) }
    ensures wait { OnOk result (wait.new ≡ wait_past room wait.old) }
    ensures pending { host.new.pending ≡ host.old.pending }
    ensures err { OnErr result ((wait.new ≡ wait.old) × (host.new ≡ host.old)) }
{
    let alloc = host.files.alloc();
    let part = part_of(alloc, wait.pieces.as_slice(), room)?;
    let rest = rest_of(alloc, wait.pieces.as_slice(), room)?;
    host.write_from(wait.call.args[0], part.as_slice())?;
    host.held.end(thread);
    wait.pieces = rest;
    wait.moved += room;
    wait.left -= room;
    Ok(())
}

/// The pieces, cut to so many bytes.
fn part_of(alloc: Global, pieces: &[Piece], room: u64) -> Result<Vec<Piece>, AllocError>
    ensures { IfOk result (λ part. part.items ≡ cut room pieces.now) }
{
    let mut part = Vec::new(alloc);
    match push_part(pieces, room, &mut part) {
        Ok(()) => Ok(part),
        Err(error) => Err(error),
    }
}

fn push_part(pieces: &[Piece], room: u64, part: &mut Vec<Piece>) -> Result<(), AllocError>
    ensures { OnOk result (part.new.items ≡ part.old.items ++ cut room pieces.now) }
{
    if pieces.is_empty() {
        return Ok(());
    }
    let at = pieces[0].at;
    let size = pieces[0].size.min(room);
    match part.push(Piece { at, size }) {
        Ok(()) => push_part(&pieces[1..], room - size, part),
        Err(error) => Err(error.into()),
    }
}

/// The pieces without their first so many bytes.
fn rest_of(alloc: Global, pieces: &[Piece], count: u64) -> Result<Vec<Piece>, AllocError>
    ensures { IfOk result (λ rest. rest.items ≡ past count pieces.now) }
{
    let mut rest = Vec::new(alloc);
    match push_rest(pieces, count, &mut rest) {
        Ok(()) => Ok(rest),
        Err(error) => Err(error),
    }
}

fn push_rest(pieces: &[Piece], count: u64, rest: &mut Vec<Piece>) -> Result<(), AllocError>
    ensures { OnOk result (rest.new.items ≡ rest.old.items ++ past count pieces.now) }
{
    if pieces.is_empty() {
        return Ok(());
    }
    let gone = pieces[0].size.min(count);
    let at = pieces[0].at.wrapping_add(gone);
    let size = pieces[0].size - gone;
    match rest.push(Piece { at, size }) {
        Ok(()) => push_rest(&pieces[1..], count - gone, rest),
        Err(error) => Err(error.into()),
    }
}
