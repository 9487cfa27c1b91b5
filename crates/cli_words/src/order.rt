use file_tree::Text;

/// What the words ask for.
#[derive(Drop)]
pub enum Order {
    /// One run of a program.
    Solo(Plan),
    /// A file of instructions is to be made into a program.
    Asm(AsmPlan),
}

/// A run of a program.
#[derive(Drop)]
pub struct Plan {
    /// The folder whose files the program sees.
    pub folder: Text,
    /// The program's path in the folder.
    pub program: Text,
    /// The guest's words, without the program's name.
    pub args: Vec<Text>,
    /// The entries of the environment, `K=V` each, in their order.
    pub env: Vec<Text>,
    /// How many events the run may have, 0 to 33554432.
    pub budget: u32,
    /// The path in the folder of the file that is the program's input, if one is.
    pub input: Option<Text>,
    /// Whether what the program leaves is kept.
    pub keep: bool,
}

/// One file that is made into another.
#[derive(Drop)]
pub struct AsmPlan {
    /// The folder of the source.
    pub folder: Text,
    /// The source's path in the folder.
    pub source: Text,
    /// The name of the file that is made.
    pub out: Text,
}

/// Why words are not read.
#[derive(Clone, Copy, Debug, PartialEq, Eq)]
pub enum WordsFault {
    /// The index of the first wrong word, or the number of words where one is missing. The command has index 0.
    At(usize),
    /// Want of memory.
    Memory,
}
