/// Why a statement isn't assembled. Of several causes of one statement the first of these is told.
#[derive(Clone, Copy, Debug, PartialEq, Eq)]
pub enum AsmCause {
    /// Its first word is no name of an instruction or a directive, or it has a byte above 127 outside quoted texts and
    /// comments.
    Word,
    /// It has too few or too many operands, or one of another form.
    Operand,
    /// A number or an offset isn't one that its field holds, or a number has more than 128 bits.
    Range,
    /// A label that it uses stands nowhere.
    Label,
    /// Its label stands before it.
    Twice,
    /// With it, text and data have more than 1,048,576 bytes.
    TooBig,
    /// There is no byte of text in the whole source.
    NoText,
    /// Want of memory.
    Memory,
}

/// Why a source isn't assembled: the cause of the first statement that has one.
#[derive(Clone, Copy, Debug, PartialEq, Eq)]
pub struct AsmFault {
    /// The statement's line, from 1 on; a line past 4,294,967,295 is told as that. 0 for `NoText` and `Memory`.
    pub line: u32,
    pub cause: AsmCause,
}
