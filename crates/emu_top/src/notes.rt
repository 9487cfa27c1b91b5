//! The lines on the notes.

ghost use Rattle.std.specs.Prelude.{◌≡◌, ◌++◌, IfOk, codes, decimal};
ghost use Rattle.std.specs.Option.{option_map};
ghost use Rattle.std.specs.String.{string_bytes};
ghost use Rattle.emu_top.specs.Causes.{row_of};
ghost use Rattle.emu_top.specs.Notes.{asm_text, end_line, part_text, fault_text, newline};

use crate::cause::{Cause, Part};
use crate::ends::End;
use elf_file::ElfFault;
use isa_asm::{AsmCause, AsmFault};
use std::alloc::{AllocError, Global};

/// The line of an end under a budget, where it has one.
pub fn line_of_end(alloc: Global, budget: u32, end: &End) -> Result<Option<String>, AllocError>
    ensures { IfOk result (λ line. option_map string_bytes line ≡ end_line budget end.now) }
{
    match end {
        End::Exit(_) => Ok(None),
        End::Killed(signal) => {
            let signal = signal.number();
            Ok(Some(format!(in alloc; "rvuser: killed by signal {signal}\n")?))
        }
        End::Budget => Ok(Some(format!(in alloc; "rvuser: budget of {budget} events spent\n")?)),
        End::Done => Ok(None),
    }
}

fn text_of_part(alloc: Global, part: &Part) -> Result<String, AllocError>
    ensures { IfOk result (λ text. string_bytes text ≡ part_text part.now) }
{
    match part {
        Part::Folder => String::from_str(alloc, "folder"),
        Part::Device(device) => format!(in alloc; "device {device}"),
        Part::Notes => String::from_str(alloc, "notes"),
    }
}

fn text_of_fault(alloc: Global, fault: &ElfFault) -> Result<String, AllocError>
    ensures { IfOk result (λ text. string_bytes text ≡ fault_text fault.now) }
{
    match fault {
        ElfFault::Short => String::from_str(alloc, "Short"),
        ElfFault::NotElf => String::from_str(alloc, "NotElf"),
        ElfFault::NotRiscv => String::from_str(alloc, "NotRiscv"),
        ElfFault::Kind => String::from_str(alloc, "Kind"),
        ElfFault::FloatAbi => String::from_str(alloc, "FloatAbi"),
        ElfFault::Embedded => String::from_str(alloc, "Embedded"),
        ElfFault::HeaderSize(size) => format!(in alloc; "HeaderSize {size}"),
        ElfFault::Interpreter => String::from_str(alloc, "Interpreter"),
        ElfFault::BadSegment(index) => format!(in alloc; "BadSegment {index}"),
        ElfFault::WritableCode(index) => format!(in alloc; "WritableCode {index}"),
        ElfFault::Overlap(first, second) => format!(in alloc; "Overlap {first} {second}"),
        ElfFault::Entry => String::from_str(alloc, "Entry"),
        ElfFault::Memory => String::from_str(alloc, "Memory"),
    }
}

fn text_of_asm(alloc: Global, cause: &AsmCause) -> Result<String, AllocError>
    ensures { IfOk result (λ text. string_bytes text ≡ asm_text cause.now) }
{
    match cause {
        AsmCause::Word => String::from_str(alloc, "Word"),
        AsmCause::Operand => String::from_str(alloc, "Operand"),
        AsmCause::Range => String::from_str(alloc, "Range"),
        AsmCause::Label => String::from_str(alloc, "Label"),
        AsmCause::Twice => String::from_str(alloc, "Twice"),
        AsmCause::TooBig => String::from_str(alloc, "TooBig"),
        AsmCause::NoText => String::from_str(alloc, "NoText"),
        AsmCause::Memory => String::from_str(alloc, "Memory"),
    }
}

/// The line of a fault, where it has one.
pub fn line_of_cause(alloc: Global, cause: &Cause) -> Result<Option<String>, AllocError>
    ensures { IfOk result (λ line. option_map string_bytes line ≡ (row_of cause.now).line) }
{
    match cause {
        Cause::Usage { word } => Ok(Some(format!(in alloc; "rvuser: usage: word {word}\n")?)),
        Cause::TooMany { count } => {
            Ok(Some(format!(in alloc; "rvuser: too many entries: {count}\n")?))
        }
        Cause::Link(path) => Ok(Some(line(alloc, "rvuser: not a plain file: ", path.as_str())?)),
        Cause::TooBig(path, size) => Ok(Some(line_of_size(alloc, path.as_str(), *size)?)),
        Cause::NotAFile(path) => Ok(Some(line(alloc, "rvuser: not a file: ", path.as_str())?)),
        Cause::NoProgram(path) => Ok(Some(line(alloc, "rvuser: no file ", path.as_str())?)),
        Cause::Elf(fault) => {
            let text = text_of_fault(alloc, fault)?;
            Ok(Some(line(alloc, "rvuser: not runnable: ", text.as_str())?))
        }
        Cause::Asm(fault) => Ok(Some(line_of_asm(alloc, fault)?)),
        Cause::StackTooLong { size } => {
            Ok(Some(format!(in alloc; "rvuser: stack texts of {size} bytes\n")?))
        }
        Cause::PagesFull { wanted } => Ok(Some(format!(in alloc;
            "rvuser: {wanted} pages wanted\n"
        )?)),
        Cause::ReadFault(part) => {
            let text = text_of_part(alloc, part)?;
            Ok(Some(line(alloc, "rvuser: read failed: ", text.as_str())?))
        }
        Cause::WriteFault(part) => line_of_write(alloc, part),
        Cause::Memory => Ok(None),
    }
}

/// The line of a failed write. There is none of the notes', which is where it would stand.
fn line_of_write(alloc: Global, part: &Part) -> Result<Option<String>, AllocError>
    ensures { IfOk result (λ line. option_map string_bytes line ≡ (row_of (Cause.WriteFault part.now)).line) }
{
    let text = match part {
        Part::Folder => text_of_part(alloc, part)?,
        Part::Device(_) => text_of_part(alloc, part)?,
        Part::Notes => return Ok(None),
    };
    Ok(Some(line(alloc, "rvuser: write failed: ", text.as_str())?))
}

/// The line of a file that is too big.
fn line_of_size(alloc: Global, path: &str, size: u64) -> Result<String, AllocError>
    ensures { IfOk result (λ line. string_bytes line ≡ codes "rvuser: too big: " ++ (path.now ++ (codes " " ++ (decimal size ++ newline)))) }
{
    let mut line = String::from_str(alloc, "rvuser: too big: ")?;
    line.push_str(path)?;
    let size = format!(in alloc; " {size}\n")?;
    line.push_str(size.as_str())?;
    Ok(line)
}

/// The line of a source that isn't assembled.
fn line_of_asm(alloc: Global, fault: &AsmFault) -> Result<String, AllocError>
    ensures { IfOk result (λ line. string_bytes line ≡ codes "rvuser: line " ++ (decimal fault.now.line ++ (codes ": " ++ (asm_text fault.now.cause ++ newline)))) }
{
    let mut line = String::from_str(alloc, "rvuser: line ")?;
    let number = fault.line;
    let number = format!(in alloc; "{number}: ")?;
    line.push_str(number.as_str())?;
    let text = text_of_asm(alloc, &fault.cause)?;
    line.push_str(text.as_str())?;
    line.push('\n')?;
    Ok(line)
}

/// A line of two texts.
fn line(alloc: Global, front: &str, back: &str) -> Result<String, AllocError>
    ensures { IfOk result (λ line. string_bytes line ≡ front.now ++ (back.now ++ newline)) }
{
    let mut line = String::from_str(alloc, front)?;
    line.push_str(back)?;
    line.push('\n')?;
    Ok(line)
}
