//! The pieces of memory between which a call and a file move bytes.

ghost use Rattle.std.specs.Prelude.{◌≡◌, ◌≤◌, ◌+◌, ◌*◌, ◌++◌, false, None, IfOk, IfSome, IfNone, IsSome, is_some, OnOk, length, min, drop};
ghost use Rattle.guest_pages.specs.Faults.{KeepsRights, first_fault, readable, writable};
ghost use Rattle.byteorder.specs.Endian.{little_number};
ghost use Rattle.guest_pages.specs.Operations.{bytes_at};
ghost use Rattle.host_calls.specs.Pieces.{any_bad, cut, gathered, most_bytes, pieces_in, put_in, scattered, total};

use guest_pages::{Pages, READABLE, Rights};
use le_fields::u64_at;
use std::alloc::{AllocError, Global};
use word_memory::Reservations;

/// The most bytes that a call moves.
pub(crate) const MOST_BYTES: u64 = 1_048_576;

/// A piece of memory: where it begins, and how many bytes it has.
#[derive(Clone, Copy, Debug, PartialEq, Eq)]
pub struct Piece {
    pub at: u64,
    pub size: u64,
}

/// The pieces of a vector, with how many bytes they have.
#[derive(Drop)]
pub struct Vector {
    pub pieces: Vec<Piece>,
    pub total: u64,
}

/// The one piece of a call, cut to what a call moves.
pub fn one_piece(at: u64, wish: u64) -> Piece
    ensures { result ≡ record { at = at; size = min wish most_bytes } }
{
    Piece {
        at,
        size: wish.min(MOST_BYTES),
    }
}

/// The pieces whose places and sizes stand in memory, at most 1,024 of them, cut to what a call moves; none where these can't be read. It takes memory
/// for them.
pub fn vector_of(
    alloc: Global,
    pages: &Pages,
    at: u64,
    count: u64,
) -> Result<Option<Vector>, AllocError>
    requires { count ≤ 1024 }
    ensures some { IfOk result (λ read. IfSome read (λ vector. (first_fault readable pages.now at (16 * count) ≡ None)
        × (vector.pieces.items ≡ cut most_bytes (pieces_in count (bytes_at pages.now at (16 * count)))))) }
    ensures size { IfOk result (λ read. IfSome read (λ vector. (vector.total ≡ total vector.pieces.items) × (vector.total ≤ most_bytes))) }
    ensures none { IfOk result (λ read. IfNone read (IsSome (first_fault readable pages.now at (16 * count)))) }
{
    if pages.allows(at, 16 * count, READABLE).is_err() {
        return Ok(None);
    }
    let mut bytes = Vec::new(alloc);
    bytes.resize(16 * count as usize, 0)?;
    match pages.copy_out(at, bytes.as_mut_slice()) {
        Ok(()) => Ok(Some(pieces_of(alloc, bytes.as_slice(), count as usize)?)),
        Err(_) => Ok(None),
    }
}

/// The pieces whose places and sizes are these bytes.
fn pieces_of(alloc: Global, bytes: &[u8], count: usize) -> Result<Vector, AllocError>
    requires { length bytes.now ≡ 16 * count }
    ensures pieces { IfOk result (λ vector. vector.pieces.items ≡ cut most_bytes (pieces_in count bytes.now)) }
    ensures total { IfOk result (λ vector. (vector.total ≡ total vector.pieces.items) × (vector.total ≤ most_bytes)) }
{
    let mut pieces = Vec::new(alloc);
    match push_pieces(bytes, count, MOST_BYTES, &mut pieces) {
        Ok(left) => Ok(Vector {
            pieces,
            total: MOST_BYTES - left,
        }),
        Err(error) => Err(error),
    }
}

/// Adds the pieces, cut to the room for them, and tells what is left of it.
#[tactic(auto, using(crate::proofs::VectorFacts::pieces_more, crate::proofs::VectorFacts::pieces_end))]
fn push_pieces(
    bytes: &[u8],
    count: usize,
    room: u64,
    pieces: &mut Vec<Piece>,
) -> Result<u64, AllocError>
    requires { length bytes.now ≡ 16 * count }
    ensures pieces { OnOk result (pieces.new.items ≡ pieces.old.items ++ cut room (pieces_in count bytes.now)) }
    ensures left { IfOk result (λ left. left + total (cut room (pieces_in count bytes.now)) ≡ room) }
{
    if count == 0 {
        return Ok(room);
    }
    let at = number_at(bytes, 0);
    let size = number_at(bytes, 8).min(room);
    match pieces.push(Piece { at, size }) {
        Ok(()) => push_pieces(&bytes[16..], count - 1, room - size, pieces),
        Err(error) => Err(error.into()),
    }
}

/// The number of eight bytes.
#[tactic(auto, unfolding(le_fields::specs::Fields::field_at))]
fn number_at(bytes: &[u8], at: usize) -> u64
    requires { at + 8 ≤ length bytes.now }
    ensures { result ≡ little_number 8 (drop at bytes.now) }
{
    match u64_at(bytes, at) {
        Some(number) => number,
        None => unreachable!(),
    }
}

/// Whether a piece of them hasn't the rights.
pub fn is_any_bad(pages: &Pages, pieces: &[Piece], needed: Rights) -> bool
    ensures { result ≡ any_bad needed pages.now pieces.now }
{
    pieces.iter().any(|piece| is_bad(pages, piece, needed))
}

fn is_bad(pages: &Pages, piece: &Piece, needed: Rights) -> bool
    ensures { result ≡ is_some (first_fault needed pages.now piece.now.at piece.now.size) }
{
    pages.allows(piece.at, piece.size, needed).is_err()
}

/// The bytes that stand in them. It takes memory for these.
pub(crate) fn gather(alloc: Global, pages: &Pages, pieces: &[Piece]) -> Result<Vec<u8>, AllocError>
    requires good { any_bad readable pages.now pieces.now ≡ false }
    requires few { total pieces.now ≤ most_bytes }
    ensures same { IfOk result (λ bytes. bytes.items ≡ gathered pages.now pieces.now) }
    ensures few { IfOk result (λ bytes. length bytes.items ≤ most_bytes) }
{
    let mut bytes = Vec::new(alloc);
    let mut k = 0;
    'pieces: while k < pieces.len() {
        match add_piece(pages, pieces[k], &mut bytes) {
            Ok(()) => k += 1,
            Err(error) => return Err(error),
        }
    }
    Ok(bytes)
}

/// The bytes of a piece go behind those that there are.
fn add_piece(pages: &Pages, piece: Piece, bytes: &mut Vec<u8>) -> Result<(), AllocError>
    requires good { first_fault readable pages.now piece.at piece.size ≡ None }
    requires few { length bytes.old.items + piece.size ≤ most_bytes }
    ensures { OnOk result (bytes.new.items ≡ bytes.old.items ++ bytes_at pages.now piece.at piece.size) }
{
    let start = bytes.len();
    bytes.resize(start + piece.size as usize, 0)?;
    match pages.copy_out(piece.at, &mut bytes[start..]) {
        Ok(()) => Ok(()),
        Err(_) => unreachable!(),
    }
}

/// Bytes go into the pieces, one after another, as stores of the thread.
pub fn scatter(
    pages: &mut Pages,
    held: &mut Reservations,
    thread: u32,
    pieces: &[Piece],
    bytes: &[u8],
)
    requires { any_bad writable pages.old pieces.now ≡ false }
    ensures { record { memory = pages.new; held = held.new } ≡ scattered thread pieces.now bytes.now (record { memory = pages.old; held = held.old }) }
{
    let mut done = 0;
    let mut k = 0;
    'pieces: while k < pieces.len() {
        let piece = pieces[k];
        let size = piece.size.min((bytes.len() - done) as u64) as usize;
        put_piece(pages, held, thread, piece, &bytes[done..done + size]);
        done += size;
        k += 1;
    }
}

/// Bytes go into a piece that has room for them, and can be written, as a store of the thread.
pub(crate) fn put_piece(
    pages: &mut Pages,
    held: &mut Reservations,
    thread: u32,
    piece: Piece,
    bytes: &[u8],
)
    requires good { first_fault writable pages.old piece.at piece.size ≡ None }
    requires room { length bytes.now ≤ piece.size }
    ensures put { record { memory = pages.new; held = held.new } ≡ put_in thread piece.at bytes.now (record { memory = pages.old; held = held.old }) }
    ensures rights { KeepsRights pages.old pages.new }
{
    match pages.copy_in(piece.at, bytes) {
        Ok(()) => held.stored(thread, piece.at, bytes.len() as u64),
        Err(_) => unreachable!(),
    }
}
