//! How a source falls into statements.

ghost use Rattle.std.specs.Prelude.{◌≡◌, ◌+◌, ◌-◌, ◌^◌, ◌==◌, ◌&&◌, ◌≤◌, ◌++◌, length, map, min, true, false, OnOk, IfOk, slice_range};
ghost use Rattle.std.specs.Prelude.{◌||◌, ◌<◌, if◌then◌else◌};
ghost use Rattle.isa_asm.specs.declared.source.Mode.TheVariants.{Front};
ghost use Rattle.isa_asm.specs.Seen.{Means, piece_seen};
ghost use Rattle.isa_asm.specs.Source.{after, after_other, cut_of, has_name, is_comment, is_foreign, is_front, is_open, label_part, next_line, part, piece_meaning, pieces, pieces_from};

use crate::cause::AsmCause;
use crate::lexing::{begins_name, is_blank, is_of_name, split_word};
use crate::meaning::{Meaning, body_meaning};
use std::alloc::{AllocError, Global};

/// A statement: a label without its colon, or another one.
#[derive(Clone, Copy)]
pub struct Piece<'a> {
    pub line: u32,
    pub is_label: bool,
    /// It has a byte above 127 outside quoted texts.
    pub foreign: bool,
    pub text: &'a [u8],
}

/// Where a byte stands.
#[derive(Clone, Copy, Debug, PartialEq, Eq)]
pub enum Mode {
    /// Behind blanks alone.
    Front,
    /// In a name in front.
    Name,
    /// Behind blanks behind it.
    Behind,
    Plain,
    Quoted,
    /// Behind a backslash in a quoted text.
    Escaped,
    Comment,
}

/// What a byte does.
#[derive(Clone, Copy, Debug, PartialEq, Eq)]
pub enum Cut {
    Go,
    Part,
    Label,
    Line,
}

fn after_other(byte: u8) -> Mode
    ensures { result ≡ after_other byte }
{
    match byte {
        b'"' => Mode::Quoted,
        b'#' => Mode::Comment,
        _ => Mode::Plain,
    }
}

fn after(mode: Mode, byte: u8) -> Mode
    ensures { result ≡ after mode byte }
{
    match mode {
        Mode::Front if is_blank(byte) => Mode::Front,
        Mode::Front if begins_name(byte) => Mode::Name,
        Mode::Front => after_other(byte),
        Mode::Name if is_of_name(byte) => Mode::Name,
        Mode::Name if is_blank(byte) => Mode::Behind,
        Mode::Name => after_other(byte),
        Mode::Behind if is_blank(byte) => Mode::Behind,
        Mode::Behind => after_other(byte),
        Mode::Plain => after_other(byte),
        Mode::Quoted if byte == b'\\' => Mode::Escaped,
        Mode::Quoted if byte == b'"' => Mode::Plain,
        Mode::Quoted => Mode::Quoted,
        Mode::Escaped => Mode::Quoted,
        Mode::Comment => Mode::Comment,
    }
}

fn is_open(mode: Mode) -> bool
    ensures { result ≡ is_open mode }
{
    match mode {
        Mode::Front | Mode::Name | Mode::Behind | Mode::Plain => true,
        Mode::Quoted | Mode::Escaped | Mode::Comment => false,
    }
}

fn has_name(mode: Mode) -> bool
    ensures { result ≡ has_name mode }
{
    match mode {
        Mode::Name | Mode::Behind => true,
        Mode::Front | Mode::Plain | Mode::Quoted | Mode::Escaped | Mode::Comment => false,
    }
}

fn is_front(mode: Mode) -> bool
    ensures { result ≡ is_front mode }
{
    match mode {
        Mode::Front => true,
        Mode::Name | Mode::Behind | Mode::Plain | Mode::Quoted | Mode::Escaped | Mode::Comment =>
            false,
    }
}

fn is_comment(mode: Mode) -> bool
    ensures { result ≡ is_comment mode }
{
    match mode {
        Mode::Comment => true,
        Mode::Front | Mode::Name | Mode::Behind | Mode::Plain | Mode::Quoted | Mode::Escaped =>
            false,
    }
}

fn cut_of(mode: Mode, byte: u8) -> Cut
    ensures { result ≡ cut_of mode byte }
{
    if byte == b'\n' {
        Cut::Line
    } else if is_open(mode) && byte == b';' {
        Cut::Part
    } else if has_name(mode) && byte == b':' {
        Cut::Label
    } else {
        Cut::Go
    }
}

/// Where the scan of a source stands, and what it knows of the statement there.
#[derive(Clone, Copy)]
struct Scan {
    line: u32,
    mode: Mode,
    foreign: bool,
    /// The statement's text so far.
    start: usize,
    end: usize,
}

impl Scan {
    /// The statement that begins at a place.
    fn fresh(line: u32, start: usize) -> Scan
        ensures { result ≡ record { line = line; mode = Front; foreign = false; start = start; end = start } }
    {
        Scan {
            line,
            mode: Mode::Front,
            foreign: false,
            start,
            end: start,
        }
    }

    /// With one more byte of the statement or of a comment, at a place.
    fn more(self, place: usize, byte: u8) -> Scan
        requires { place < 2 ^ 64 - 1 }
        ensures line { result.line ≡ self.line }
        ensures mode { result.mode ≡ after self.mode byte }
        ensures foreign { result.foreign ≡ (self.foreign || is_foreign self.mode byte) }
        ensures start { result.start ≡ self.start }
        ensures end { result.end ≡ (if is_comment (after self.mode byte) then self.end else place + 1) }
    {
        let mode = after(self.mode, byte);
        Scan {
            line: self.line,
            mode,
            foreign: self.foreign || (is_open(self.mode) && byte > 127),
            start: self.start,
            end: if is_comment(mode) {
                self.end
            } else {
                place + 1
            },
        }
    }

    /// Adds the statement, if it isn't blanks alone.
    fn push_part<'a>(self, pieces: &mut Vec<Piece<'a>>, source: &'a [u8]) -> Result<(), AllocError>
        requires order { self.start ≤ self.end }
        requires within { self.end ≤ length source.now }
        ensures { OnOk result (map piece_seen pieces.new.items ≡ map piece_seen pieces.old.items ++ part self.line self.mode self.foreign (slice_range source.now self.start self.end)) }
    {
        if is_front(self.mode) {
            return Ok(());
        }
        pieces.push(Piece {
            line: self.line,
            is_label: false,
            foreign: self.foreign,
            text: &source[self.start..self.end],
        })?;
        Ok(())
    }

    /// Adds the label.
    fn push_label<'a>(self, pieces: &mut Vec<Piece<'a>>, source: &'a [u8]) -> Result<(), AllocError>
        requires order { self.start ≤ self.end }
        requires within { self.end ≤ length source.now }
        ensures { OnOk result (map piece_seen pieces.new.items ≡ map piece_seen pieces.old.items ++ label_part self.line (slice_range source.now self.start self.end)) }
    {
        pieces.push(Piece {
            line: self.line,
            is_label: true,
            foreign: false,
            text: &source[self.start..self.end],
        })?;
        Ok(())
    }
}

fn next_line(line: u32) -> u32
    ensures { result ≡ next_line line }
{
    line.saturating_add(1)
}

/// The statements of a source, in their order. Takes time and memory that its length bounds.
#[tactic(auto, unfolding(crate::specs::Source::pieces, crate::specs::Source::pieces_from))]
pub fn split(alloc: Global, source: &[u8]) -> Result<Vec<Piece<'_>>, AllocError>
    ensures { IfOk result (λ found. map piece_seen found.items ≡ pieces source.now) }
{
    let mut pieces = Vec::new(alloc);
    let mut scan = Scan::fresh(1, 0);
    for (place, byte) in source.iter().enumerate() {
        match cut_of(scan.mode, *byte) {
            Cut::Go => scan = scan.more(place, *byte),
            Cut::Part => {
                scan.push_part(&mut pieces, source)?;
                scan = Scan::fresh(scan.line, place + 1);
            }
            Cut::Label => {
                scan.push_label(&mut pieces, source)?;
                scan = Scan::fresh(scan.line, place + 1);
            }
            Cut::Line => {
                scan.push_part(&mut pieces, source)?;
                scan = Scan::fresh(next_line(scan.line), place + 1);
            }
        }
    }
    scan.push_part(&mut pieces, source)?;
    Ok(pieces)
}

/// What a statement means.
#[tactic(auto, unfolding(crate::specs::Source::piece_meaning))]
pub fn piece_meaning<'a>(piece: &Piece<'a>) -> Result<Meaning<'a>, AsmCause>
    ensures { Means result (piece_meaning (piece_seen piece.now)) }
{
    if piece.is_label {
        let (name, _) = split_word(piece.text);
        return Ok(Meaning::Named(name));
    }
    if piece.foreign {
        return Err(AsmCause::Word);
    }
    body_meaning(piece.text)
}
