//! What a statement's first word names.

ghost use Rattle.std.specs.Prelude.{◌≡◌};
ghost use Rattle.isa_asm.specs.Kinds.{atomic_named, kind_named};

use crate::lexing::cut_at;
use crate::table::find;
use isa_decode::{AluOp, AmoOp, Cmp, ImmOp, LoadKind, Width};

/// What a statement's first word names.
#[derive(Clone, Copy, Debug, PartialEq, Eq)]
pub enum Kind {
    Lui,
    Auipc,
    Jal,
    Jalr,
    Branch(Cmp),
    Load(LoadKind),
    Store(Width),
    Immediate(ImmOp),
    Operation(AluOp),
    /// True of `fence.i`.
    Fence(bool),
    Ecall,
    Ebreak,
    /// Whether it is of 8 bytes, and 2 for aq plus 1 for rl.
    Atomic(Atomic, bool, u8),
    LoadImmediate,
    LoadAddress,
    Move,
    Nop,
    Return,
    Jump,
    Call,
    BranchZero(Cmp),
    Text,
    Data,
    /// A number of one, two or four bytes.
    Number(Width),
    Doubleword,
    Space,
    Ascii,
}

#[derive(Clone, Copy, Debug, PartialEq, Eq)]
pub enum Atomic {
    LoadReserved,
    StoreConditional,
    Amo(AmoOp),
}

/// The names of all kinds but the atomic operations.
const KINDS: [(&str, Kind); 83] = [
    ("lui", Kind::Lui),
    ("auipc", Kind::Auipc),
    ("jal", Kind::Jal),
    ("jalr", Kind::Jalr),
    ("beq", Kind::Branch(Cmp::Beq)),
    ("bne", Kind::Branch(Cmp::Bne)),
    ("blt", Kind::Branch(Cmp::Blt)),
    ("bge", Kind::Branch(Cmp::Bge)),
    ("bltu", Kind::Branch(Cmp::Bltu)),
    ("bgeu", Kind::Branch(Cmp::Bgeu)),
    ("lb", Kind::Load(LoadKind::Lb)),
    ("lh", Kind::Load(LoadKind::Lh)),
    ("lw", Kind::Load(LoadKind::Lw)),
    ("ld", Kind::Load(LoadKind::Ld)),
    ("lbu", Kind::Load(LoadKind::Lbu)),
    ("lhu", Kind::Load(LoadKind::Lhu)),
    ("lwu", Kind::Load(LoadKind::Lwu)),
    ("sb", Kind::Store(Width::One)),
    ("sh", Kind::Store(Width::Two)),
    ("sw", Kind::Store(Width::Four)),
    ("sd", Kind::Store(Width::Eight)),
    ("addi", Kind::Immediate(ImmOp::Addi)),
    ("slti", Kind::Immediate(ImmOp::Slti)),
    ("sltiu", Kind::Immediate(ImmOp::Sltiu)),
    ("xori", Kind::Immediate(ImmOp::Xori)),
    ("ori", Kind::Immediate(ImmOp::Ori)),
    ("andi", Kind::Immediate(ImmOp::Andi)),
    ("slli", Kind::Immediate(ImmOp::Slli)),
    ("srli", Kind::Immediate(ImmOp::Srli)),
    ("srai", Kind::Immediate(ImmOp::Srai)),
    ("addiw", Kind::Immediate(ImmOp::Addiw)),
    ("slliw", Kind::Immediate(ImmOp::Slliw)),
    ("srliw", Kind::Immediate(ImmOp::Srliw)),
    ("sraiw", Kind::Immediate(ImmOp::Sraiw)),
    ("add", Kind::Operation(AluOp::Add)),
    ("sub", Kind::Operation(AluOp::Sub)),
    ("sll", Kind::Operation(AluOp::Sll)),
    ("slt", Kind::Operation(AluOp::Slt)),
    ("sltu", Kind::Operation(AluOp::Sltu)),
    ("xor", Kind::Operation(AluOp::Xor)),
    ("srl", Kind::Operation(AluOp::Srl)),
    ("sra", Kind::Operation(AluOp::Sra)),
    ("or", Kind::Operation(AluOp::Or)),
    ("and", Kind::Operation(AluOp::And)),
    ("mul", Kind::Operation(AluOp::Mul)),
    ("mulh", Kind::Operation(AluOp::Mulh)),
    ("mulhsu", Kind::Operation(AluOp::Mulhsu)),
    ("mulhu", Kind::Operation(AluOp::Mulhu)),
    ("div", Kind::Operation(AluOp::Div)),
    ("divu", Kind::Operation(AluOp::Divu)),
    ("rem", Kind::Operation(AluOp::Rem)),
    ("remu", Kind::Operation(AluOp::Remu)),
    ("addw", Kind::Operation(AluOp::Addw)),
    ("subw", Kind::Operation(AluOp::Subw)),
    ("sllw", Kind::Operation(AluOp::Sllw)),
    ("srlw", Kind::Operation(AluOp::Srlw)),
    ("sraw", Kind::Operation(AluOp::Sraw)),
    ("mulw", Kind::Operation(AluOp::Mulw)),
    ("divw", Kind::Operation(AluOp::Divw)),
    ("divuw", Kind::Operation(AluOp::Divuw)),
    ("remw", Kind::Operation(AluOp::Remw)),
    ("remuw", Kind::Operation(AluOp::Remuw)),
    ("fence", Kind::Fence(false)),
    ("fence.i", Kind::Fence(true)),
    ("ecall", Kind::Ecall),
    ("ebreak", Kind::Ebreak),
    ("li", Kind::LoadImmediate),
    ("la", Kind::LoadAddress),
    ("mv", Kind::Move),
    ("nop", Kind::Nop),
    ("ret", Kind::Return),
    ("j", Kind::Jump),
    ("call", Kind::Call),
    ("beqz", Kind::BranchZero(Cmp::Beq)),
    ("bnez", Kind::BranchZero(Cmp::Bne)),
    (".text", Kind::Text),
    (".data", Kind::Data),
    (".byte", Kind::Number(Width::One)),
    (".half", Kind::Number(Width::Two)),
    (".word", Kind::Number(Width::Four)),
    (".dword", Kind::Doubleword),
    (".space", Kind::Space),
    (".ascii", Kind::Ascii),
];

/// What stands before the width of an atomic operation.
const ATOMICS: [(&str, Atomic); 11] = [
    ("lr", Atomic::LoadReserved),
    ("sc", Atomic::StoreConditional),
    ("amoswap", Atomic::Amo(AmoOp::Amoswap)),
    ("amoadd", Atomic::Amo(AmoOp::Amoadd)),
    ("amoxor", Atomic::Amo(AmoOp::Amoxor)),
    ("amoand", Atomic::Amo(AmoOp::Amoand)),
    ("amoor", Atomic::Amo(AmoOp::Amoor)),
    ("amomin", Atomic::Amo(AmoOp::Amomin)),
    ("amomax", Atomic::Amo(AmoOp::Amomax)),
    ("amominu", Atomic::Amo(AmoOp::Amominu)),
    ("amomaxu", Atomic::Amo(AmoOp::Amomaxu)),
];

/// The width and the order of an atomic operation.
const SUFFIXES: [(&str, (bool, u8)); 8] = [
    ("w", (false, 0)),
    ("w.rl", (false, 1)),
    ("w.aq", (false, 2)),
    ("w.aqrl", (false, 3)),
    ("d", (true, 0)),
    ("d.rl", (true, 1)),
    ("d.aq", (true, 2)),
    ("d.aqrl", (true, 3)),
];

/// The kind that a word names, if it is a name.
#[tactic(auto, unfolding(crate::specs::Kinds::kind_named))]
pub fn kind_named(name: &[u8]) -> Option<Kind>
    ensures { result ≡ kind_named name.now }
{
    match find(name, &KINDS) {
        Some(kind) => Some(kind),
        None => atomic_named(name),
    }
}

#[tactic(auto, unfolding(crate::specs::Kinds::atomic_named))]
fn atomic_named(name: &[u8]) -> Option<Kind>
    ensures { result ≡ atomic_named name.now }
{
    let parts = cut_at(b'.', name)?;
    let atomic = find(parts.before, &ATOMICS)?;
    let (wide, order) = find(parts.behind, &SUFFIXES)?;
    Some(Kind::Atomic(atomic, wide, order))
}
