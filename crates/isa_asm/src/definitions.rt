//! What the definitions make sure of.

ghost use Rattle.std.specs.Prelude.{◌≡◌, ◌<◌, ◌^◌, ℕ, List, [], Ok, Some};
ghost use Rattle.std.specs.Int.{w32, to_le_bytes};
ghost use Rattle.isa_decode.specs.declared.instruction.Instr.{Instr};
ghost use Rattle.isa_decode.specs.Listing.{decoding};
ghost use Rattle.isa_decode.specs.Ranges.{InRange};
ghost use Rattle.isa_print.specs.Texts.{instruction_text};
ghost use Rattle.isa_asm.specs.File.{IsAssembled, file};
ghost use Rattle.isa_asm.specs.Places.{text_base};
ghost use Rattle.isa_asm.specs.Sizes.{IsSized};
ghost use Rattle.isa_asm.specs.Source.{pieces};
ghost use Rattle.isa_asm.specs.Statement.{One, body_meaning};

/// The laws of sources. The text of an instruction in range means that instruction (`meaning`). As a source it has the file
/// whose text is the word that is decoded to the instruction, without data (`printed`). A source has one file at most
/// (`only`). Text and data have as many bytes as their statements, and labels of the data are counted from where the file
/// has it (`sizes`). It does nothing, and costs nothing.
pub fn laws()
    ensures meaning { (instr : Instr) → InRange instr → body_meaning (instruction_text instr) ≡ Ok (One instr) }
    ensures printed { (instr : Instr) (word : ℕ) → InRange instr → word < 2 ^ 32 → decoding word ≡ Some instr → IsAssembled (instruction_text instr) (file text_base (to_le_bytes w32 word) []) }
    ensures only { (source one other : List ℕ) → IsAssembled source one → IsAssembled source other → one ≡ other }
    ensures sizes { (source bytes : List ℕ) (made : IsAssembled source bytes) → IsSized (pieces source) made.written.text made.written.data_bytes }
{}
