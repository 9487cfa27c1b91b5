use crate::{AsmCause, AsmFault, assemble};
use std::alloc::Global;
use std::test::Fail;

/// The length of the file, or the fault.
pub fn answer(alloc: Global, source: &[u8]) -> Result<usize, AsmFault> {
    match assemble(alloc, source) {
        Ok(file) => Ok(file.len()),
        Err(fault) => Err(fault),
    }
}

/// A number or an offset of a line isn't one that its field holds.
pub fn out_of_range(line: u32) -> Result<usize, AsmFault> {
    Err(AsmFault {
        line,
        cause: AsmCause::Range,
    })
}

/// What stands from 4096 on.
pub fn text_of(alloc: Global, source: &[u8]) -> Result<Vec<u8>, Fail> {
    part_of(alloc, source, 4096, usize::MAX)
}

/// What stands between two places of the file.
pub fn part_of(alloc: Global, source: &[u8], from: usize, to: usize) -> Result<Vec<u8>, Fail> {
    let Ok(file) = assemble(alloc, source) else {
        return Err(Fail::from("a fault"));
    };
    let bytes = file.as_slice();
    let to = to.min(bytes.len());
    if from > to {
        return Err(Fail::from("a short file"));
    }
    Ok(Vec::from_slice(alloc, &bytes[from..to])?)
}
