//! Statements to text and data.

ghost use Rattle.std.specs.Prelude.{◌≡◌, ◌≢◌, Ok, Some, None, map, true, false, not, OnOk, IfOk, IfErr};
ghost use Rattle.isa_asm.specs.File.{IsAssembled, IsFaultOf, IsFile, Spells, fault_of, no_memory};
ghost use Rattle.isa_asm.specs.Places.{fault_from, items_from, kept, start};
ghost use Rattle.isa_asm.specs.Seen.{Emits, IsSound, code_items, piece_seen, places_seen};

use crate::cause::{AsmCause, AsmFault};
use crate::emit::emit;
use crate::file::write_file;
use crate::labels::{Labels, entry_of, place_labels};
use crate::layout::START;
use crate::resolve::{Code, outcome};
use crate::source::{Piece, split};
use le_fields::Bytes;
use std::alloc::{AllocError, Global};

/// Want of memory.
pub const NO_MEMORY: AsmFault = AsmFault {
    line: 0,
    cause: AsmCause::Memory,
};

/// The bytes of both sections.
#[derive(Drop)]
pub struct Sections {
    pub text: Vec<u8>,
    pub data_bytes: Vec<u8>,
}

impl Sections {
    /// Adds what a statement becomes to its section.
    fn push(&mut self, in_data: bool, code: &Code<'_>) -> Result<(), AllocError>
        requires { IsSound code.now }
        ensures text { OnOk result (Emits (kept (not in_data) (Ok (code_items code.now))) self.old.text.items self.new.text.items) }
        ensures data_bytes { OnOk result (Emits (kept in_data (Ok (code_items code.now))) self.old.data_bytes.items self.new.data_bytes.items) }
    {
        if in_data {
            emit(&mut self.data_bytes, code)
        } else {
            emit(&mut self.text, code)
        }
    }
}

/// The text and the data of statements, or the cause of the first one that has one.
pub fn assemble_pieces(
    alloc: Global,
    pieces: &[Piece<'_>],
    labels: &Labels<'_>,
) -> Result<Sections, AsmFault>
    ensures faultless { IfOk result (λ sections. fault_from (places_seen labels.now) 0 start (map piece_seen pieces.now) ≡ None) }
    ensures text { IfOk result (λ sections. Spells (items_from false (places_seen labels.now) 0 start (map piece_seen pieces.now)) sections.text.items) }
    ensures data_bytes { IfOk result (λ sections. Spells (items_from true (places_seen labels.now) 0 start (map piece_seen pieces.now)) sections.data_bytes.items) }
    ensures err { IfErr result (λ fault. fault ≢ no_memory → fault_from (places_seen labels.now) 0 start (map piece_seen pieces.now) ≡ Some fault) }
{
    let mut sections = Sections {
        text: Vec::new(alloc),
        data_bytes: Vec::new(alloc),
    };
    let mut layout = START;
    for (index, piece) in pieces.iter().enumerate() {
        match outcome(labels, index, layout, piece) {
            Ok((code, next)) => match sections.push(layout.in_data, &code) {
                Ok(()) => layout = next,
                Err(_) => return Err(NO_MEMORY),
            },
            Err(cause) => {
                return Err(AsmFault {
                    line: piece.line,
                    cause,
                });
            }
        }
    }
    Ok(sections)
}

/// Nothing is there to be run.
const NO_TEXT: AsmFault = AsmFault {
    line: 0,
    cause: AsmCause::NoText,
};

/// The file of statements, or the cause of the first one that has one.
#[tactic(auto, unfolding(crate::specs::File::fault_of))]
fn assemble_statements(alloc: Global, pieces: &[Piece<'_>]) -> Result<Vec<u8>, AsmFault>
    ensures faultless { IfOk result (λ bytes. fault_of (map piece_seen pieces.now) ≡ None) }
    ensures written { IfOk result (λ bytes. IsFile (map piece_seen pieces.now) bytes.items) }
    ensures err { IfErr result (λ fault. fault ≢ no_memory → fault_of (map piece_seen pieces.now) ≡ Some fault) }
{
    let Ok(labels) = place_labels(alloc, pieces) else {
        return Err(NO_MEMORY);
    };
    let sections = match assemble_pieces(alloc, pieces, &labels) {
        Ok(sections) => sections,
        Err(fault) => return Err(fault),
    };
    if labels.text == 0 {
        return Err(NO_TEXT);
    }
    match write_file(
        alloc,
        entry_of(&labels),
        &sections.text,
        &sections.data_bytes,
    ) {
        Ok(bytes) => Ok(bytes),
        Err(_) => Err(NO_MEMORY),
    }
}

/// The file of a source in assembly, or the fault of the first statement that has one, with its first cause in the order of
/// `AsmCause`. Any bytes are a source. Takes time that the source's length times the logarithm of the number of its labels
/// bounds, and memory for its statements and labels.
///
/// A label is a statement of its own, also where another one follows it. A statement without a meaning (`Word`, `Operand`,
/// or a number that `Range` refuses whatever its place is) has no bytes; sums of sizes stand still at 4,294,967,295.
///
/// References: the RISC-V unprivileged manual, "RISC-V Assembly Programmer's Handbook"; the System V ABI, "ELF Header" and
/// "Program Header".
pub fn assemble(alloc: Global, source: &[u8]) -> Result<Bytes, AsmFault>
    ensures ok { IfOk result (λ bytes. IsAssembled source.now bytes) }
    ensures err { IfErr result (λ fault. IsFaultOf source.now fault) }
{
    let Ok(pieces) = split(alloc, source) else {
        return Err(NO_MEMORY);
    };
    match assemble_statements(alloc, &pieces) {
        Ok(bytes) => Ok(Bytes::from_vec(bytes)),
        Err(fault) => Err(fault),
    }
}
