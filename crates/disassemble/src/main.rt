//! The program `disassemble`: the texts of RISC-V instruction words, for comparing the decoders with others.
//!
//! It reads standard input to its end as words of 4 bytes, the lowest byte first, and writes one line for each on
//! standard output: the text of the word where its two lowest bits are both set, else that of its lower half, which is an
//! instruction of 2 bytes. The line is `none` where there is no instruction. `tools/compare_with_objdump`, at the top of
//! the repository, sets these lines beside those of another disassembler.
//!
//! The model of what is written is the list of its bytes: `lines_text` of the bytes that were read (`specs/Lines.antt`),
//! over the listings of the crates below, `decoding` of `isa_decode`, `expansion` of `isa_compressed` and
//! `instruction_text` of `isa_print`. `line_of` gives the line of one word, and `write_listing` writes exactly those lines,
//! for any reader and writer whose bytes are known. `main` passes it standard input and output, of which nothing is known.
//!
//! It ends with the status 0, or with one line on standard error and the status 65 where the input's length is no multiple
//! of 4 (no line is written then), 70 for want of memory, or 74 where reading or writing fails.
//!
//! The source is the RISC-V unprivileged manual: its chapter "Introduction" for the two lowest bits of an instruction, and
//! its listings of instructions of 4 and of 2 bytes.
#![tactic(auto)]

mod fault;
mod lines;
mod listing;
#[cfg(test)]
mod tests;

use fault::Fault;
use listing::write_listing;
use std::io::{BufWriter, Write};
use std::process::ExitCode;

fn main(rt: HostRuntime) -> ExitCode {
    match run(&rt) {
        Ok(()) => ExitCode::SUCCESS,
        Err(fault) => {
            let message = fault.message();
            let _ = eprintln!(rt; "{message}");
            ExitCode::from(fault.status())
        }
    }
}

/// Writes the lines of the words of standard input on standard output.
fn run(rt: &HostRuntime) -> Result<(), Fault> {
    let mut input = rt.stdin();
    let mut output = BufWriter::new(rt.alloc(), rt.stdout())?;
    write_listing(rt.alloc(), &mut input, &mut output)?;
    output.flush()?;
    Ok(())
}
