ghost use Rattle.std.specs.Prelude.{◌≡◌, ◌≢◌, ◌≤◌, ◌+◌, ◌*◌, ◌%◌, ◌++◌, ◌↔◌, codes, length, IfErr, IfSome, IsErrOf, OnOk};
ghost use Rattle.std.specs.Io.KnownBytes.{Appends, Keeps};
ghost use Rattle.disassemble.specs.Lines.{line_text, lines_text, word_at};
ghost use Rattle.disassemble.specs.declared.fault.Fault.TheVariants.{PartOfAWord};

use crate::fault::Fault;
use crate::lines::line_of;
use std::alloc::Global;
use std::io::{Read, Write};

/// Reads the input to its end, and then writes the line of each of its words on the output. Nothing is written where the
/// input ends in a part of a word, whatever the fault is. Where it doesn't, nothing is said of what was written before a
/// fault, and it is never said when reading or writing fails. Its time and its memory are in the length of the input.
pub fn write_listing<R: Read, W: Write>(
    alloc: Global,
    input: &mut R,
    output: &mut W,
) -> Result<(), Fault>
    ensures lines { OnOk result (IfSome (R.remaining input.old)
        (λ bytes. (length bytes % 4 ≡ 0) × Appends (W.contents output.old) (W.contents output.new) (lines_text bytes))) }
    ensures part { IsErrOf result PartOfAWord → IfSome (R.remaining input.old) (λ bytes. length bytes % 4 ≢ 0) }
    ensures untouched { IfSome (R.remaining input.old)
        (λ bytes. length bytes % 4 ≢ 0 → Keeps (W.contents output.old) (W.contents output.new)) }
{
    let mut bytes = Vec::new(alloc);
    input.read_to_end(&mut bytes)?;
    write_lines(alloc, bytes.as_slice(), output)
}

/// Writes the line of each of the words that the bytes hold, and nothing where the last has fewer than 4 bytes.
fn write_lines<W: Write>(alloc: Global, bytes: &[u8], output: &mut W) -> Result<(), Fault>
    ensures part { IsErrOf result PartOfAWord ↔ (length bytes.now % 4 ≢ 0) }
    ensures untouched { length bytes.now % 4 ≢ 0 → Keeps (W.contents output.old) (W.contents output.new) }
    ensures lines { OnOk result (Appends (W.contents output.old) (W.contents output.new) (lines_text bytes.now)) }
{
    if bytes.len() % 4 != 0 {
        return Err(Fault::PartOfAWord);
    }
    for index in 0..bytes.len() / 4 {
        write_line(alloc, word_at(bytes, index), output)?;
    }
    Ok(())
}

fn write_line<W: Write>(alloc: Global, word: u32, output: &mut W) -> Result<(), Fault>
    ensures line { OnOk result (Appends (W.contents output.old) (W.contents output.new) (line_text word ++ codes "\n")) }
    ensures err { IfErr result (λ fault. fault ≢ PartOfAWord) }
{
    let line = line_of(alloc, word)?;
    output.write_all(line.as_str().as_bytes())?;
    output.write_all(b"\n")?;
    Ok(())
}

fn word_at(bytes: &[u8], index: usize) -> u32
    requires { 4 * index + 4 ≤ length bytes.now }
    ensures { result ≡ word_at bytes.now index }
{
    let start = 4 * index;
    u32::from_le_bytes([
        bytes[start],
        bytes[start + 1],
        bytes[start + 2],
        bytes[start + 3],
    ])
}
