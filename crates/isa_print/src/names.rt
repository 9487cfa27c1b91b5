ghost use Rattle.std.specs.Prelude.{◌≡◌, codes, if◌then◌else◌};
ghost use Rattle.isa_print.specs.Texts.{alu_name, amo_name, branch_name, imm_name, load_name, order_suffix, store_name, width_suffix};

use isa_decode::{AluOp, AmoOp, Cmp, ImmOp, LoadKind, Width};

pub fn name_of_branch(cmp: Cmp) -> &'static str
    ensures { result.now ≡ branch_name cmp }
{
    match cmp {
        Cmp::Beq => "beq",
        Cmp::Bne => "bne",
        Cmp::Blt => "blt",
        Cmp::Bge => "bge",
        Cmp::Bltu => "bltu",
        Cmp::Bgeu => "bgeu",
    }
}

pub fn name_of_load(kind: LoadKind) -> &'static str
    ensures { result.now ≡ load_name kind }
{
    match kind {
        LoadKind::Lb => "lb",
        LoadKind::Lh => "lh",
        LoadKind::Lw => "lw",
        LoadKind::Ld => "ld",
        LoadKind::Lbu => "lbu",
        LoadKind::Lhu => "lhu",
        LoadKind::Lwu => "lwu",
    }
}

pub fn name_of_store(width: Width) -> &'static str
    ensures { result.now ≡ store_name width }
{
    match width {
        Width::One => "sb",
        Width::Two => "sh",
        Width::Four => "sw",
        Width::Eight => "sd",
    }
}

pub fn name_of_immediate_operation(op: ImmOp) -> &'static str
    ensures { result.now ≡ imm_name op }
{
    match op {
        ImmOp::Addi => "addi",
        ImmOp::Slti => "slti",
        ImmOp::Sltiu => "sltiu",
        ImmOp::Xori => "xori",
        ImmOp::Ori => "ori",
        ImmOp::Andi => "andi",
        ImmOp::Slli => "slli",
        ImmOp::Srli => "srli",
        ImmOp::Srai => "srai",
        ImmOp::Addiw => "addiw",
        ImmOp::Slliw => "slliw",
        ImmOp::Srliw => "srliw",
        ImmOp::Sraiw => "sraiw",
    }
}

pub fn name_of_operation(op: AluOp) -> &'static str
    ensures { result.now ≡ alu_name op }
{
    match op {
        AluOp::Add => "add",
        AluOp::Sub => "sub",
        AluOp::Sll => "sll",
        AluOp::Slt => "slt",
        AluOp::Sltu => "sltu",
        AluOp::Xor => "xor",
        AluOp::Srl => "srl",
        AluOp::Sra => "sra",
        AluOp::Or => "or",
        AluOp::And => "and",
        AluOp::Mul => "mul",
        AluOp::Mulh => "mulh",
        AluOp::Mulhsu => "mulhsu",
        AluOp::Mulhu => "mulhu",
        AluOp::Div => "div",
        AluOp::Divu => "divu",
        AluOp::Rem => "rem",
        AluOp::Remu => "remu",
        AluOp::Addw => "addw",
        AluOp::Subw => "subw",
        AluOp::Sllw => "sllw",
        AluOp::Srlw => "srlw",
        AluOp::Sraw => "sraw",
        AluOp::Mulw => "mulw",
        AluOp::Divw => "divw",
        AluOp::Divuw => "divuw",
        AluOp::Remw => "remw",
        AluOp::Remuw => "remuw",
    }
}

pub fn name_of_memory_operation(op: AmoOp) -> &'static str
    ensures { result.now ≡ amo_name op }
{
    match op {
        AmoOp::Amoswap => "amoswap",
        AmoOp::Amoadd => "amoadd",
        AmoOp::Amoxor => "amoxor",
        AmoOp::Amoand => "amoand",
        AmoOp::Amoor => "amoor",
        AmoOp::Amomin => "amomin",
        AmoOp::Amomax => "amomax",
        AmoOp::Amominu => "amominu",
        AmoOp::Amomaxu => "amomaxu",
    }
}

pub fn suffix_of_width(wide: bool) -> &'static str
    ensures { result.now ≡ width_suffix wide }
{
    if wide { ".d" } else { ".w" }
}

pub fn suffix_of_order(order: u8) -> &'static str
    ensures { result.now ≡ order_suffix order }
{
    match order {
        0 => "",
        1 => ".rl",
        2 => ".aq",
        _ => ".aqrl",
    }
}

pub fn name_of_fence(code: bool) -> &'static str
    ensures { result.now ≡ (if code then codes "fence.i" else codes "fence") }
{
    if code { "fence.i" } else { "fence" }
}
