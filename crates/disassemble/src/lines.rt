ghost use Rattle.std.specs.Prelude.{◌≡◌, IfOk};
ghost use Rattle.isa_decode.specs.Fields.{bits};
ghost use Rattle.disassemble.specs.Lines.{instruction_of, line_text, text_or_none};

use file_tree::Text;
use isa_compressed::expand;
use isa_decode::{Instr, decode};
use isa_print::text_of;
use std::alloc::{AllocError, Global};

/// The line of the word, without its end: the text of its instruction, `none` where it has none. Only the lower half of
/// the word counts where its two lowest bits are not both set.
///
/// References: the RISC-V unprivileged manual, "Base Instruction-Length Encoding".
pub fn line_of(alloc: Global, word: u32) -> Result<Text, AllocError>
    ensures { IfOk result (λ line. line ≡ line_text word) }
{
    let instruction = instruction_in(word);
    text_or_none(alloc, &instruction)
}

fn instruction_in(word: u32) -> Option<Instr>
    ensures { result ≡ instruction_of word }
{
    match word % 4 {
        3 => decode(word),
        _ => expand(lower_half(word)),
    }
}

fn lower_half(word: u32) -> u16
    ensures { result ≡ bits word 15 0 }
{
    (word % 0x1_0000) as u16
}

fn text_or_none(alloc: Global, instruction: &Option<Instr>) -> Result<Text, AllocError>
    ensures { IfOk result (λ line. line ≡ text_or_none instruction.now) }
{
    match instruction {
        Some(instr) => text_of(alloc, instr),
        None => Text::new(alloc, "none"),
    }
}
