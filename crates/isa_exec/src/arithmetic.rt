ghost use Rattle.std.specs.Prelude.{◌≡◌, ◌≢◌, ◌<◌, ◌%◌, ◌^◌, ◌==◌, ◌*ℤ◌, pos, int_div, int_rem};
ghost use Rattle.std.specs.Int.{int_shr};
ghost use Rattle.isa_exec.specs.Arithmetic.{alu, extended, is_taken, lower, number, signed_lower, with_register_operand};

use isa_decode::{AluOp, Cmp, ImmOp};

/// The lower 32 bits, sign-extended.
#[inline]
pub fn sign_extended(value: u64) -> u64
    ensures { result ≡ extended value }
{
    i64::from(lower_half(value).cast_signed()).cast_unsigned()
}

#[inline]
fn lower_half(value: u64) -> u32
    ensures { result ≡ lower value }
{
    (value % 0x1_0000_0000) as u32
}

#[inline]
fn signed_lower_half(value: u64) -> i32
    ensures value { result ≡ signed_lower value }
    ensures nonzero { lower value ≢ 0 → result ≢ pos 0 }
{
    lower_half(value).cast_signed()
}

/// The quotient of the signed lower halves.
#[inline]
fn signed_quotient(a: i32, b: i32) -> u64
    requires { b ≢ pos 0 }
    ensures { result ≡ number (int_div a b) }
{
    (i64::from(a) / i64::from(b)).cast_unsigned()
}

/// The remainder of the signed lower halves.
#[inline]
fn signed_remainder(a: u64, b: u64) -> u64
    requires { lower b ≢ 0 }
    ensures { result ≡ number (int_rem (signed_lower a) (signed_lower b)) }
{
    (i64::from(signed_lower_half(a)) % i64::from(signed_lower_half(b))).cast_unsigned()
}

#[inline]
fn signed_product(a: i64, b: i64) -> i128
    ensures { result ≡ a *ℤ b }
{
    i128::from(a) * i128::from(b)
}

/// The upper 64 bits of a product.
#[inline]
fn upper_half(product: i128) -> i64
    ensures { result ≡ int_shr product 64 }
{
    (product >> 64) as i64
}

#[inline]
fn add(a: u64, b: u64) -> u64
    ensures { result ≡ alu AluOp.Add a b }
{
    a.wrapping_add(b)
}

#[inline]
fn subtract(a: u64, b: u64) -> u64
    ensures { result ≡ alu AluOp.Sub a b }
{
    a.wrapping_sub(b)
}

#[inline]
fn shift_left(a: u64, b: u64) -> u64
    ensures { result ≡ alu AluOp.Sll a b }
{
    a.wrapping_mul(1 << (b % 64))
}

#[inline]
fn is_less(a: u64, b: u64) -> u64
    ensures { result ≡ alu AluOp.Slt a b }
{
    u64::from(a.cast_signed() < b.cast_signed())
}

#[inline]
fn is_below(a: u64, b: u64) -> u64
    ensures { result ≡ alu AluOp.Sltu a b }
{
    u64::from(a < b)
}

#[inline]
fn shift_right(a: u64, b: u64) -> u64
    ensures { result ≡ alu AluOp.Srl a b }
{
    a >> (b % 64)
}

#[inline]
fn shift_right_signed(a: u64, b: u64) -> u64
    ensures { result ≡ alu AluOp.Sra a b }
{
    (a.cast_signed() >> (b % 64)).cast_unsigned()
}

#[inline]
fn multiply(a: u64, b: u64) -> u64
    ensures { result ≡ alu AluOp.Mul a b }
{
    a.wrapping_mul(b)
}

#[inline]
fn multiply_upper(a: u64, b: u64) -> u64
    ensures { result ≡ alu AluOp.Mulh a b }
{
    upper_half(signed_product(a.cast_signed(), b.cast_signed())).cast_unsigned()
}

#[inline]
fn multiply_upper_mixed(a: u64, b: u64) -> u64
    ensures { result ≡ alu AluOp.Mulhsu a b }
{
    upper_half(i128::from(a.cast_signed()) * i128::from(b)).cast_unsigned()
}

#[inline]
fn multiply_upper_unsigned(a: u64, b: u64) -> u64
    ensures { result ≡ alu AluOp.Mulhu a b }
{
    ((u128::from(a) * u128::from(b)) >> 64) as u64
}

#[inline]
fn divide(a: u64, b: u64) -> u64
    ensures { result ≡ alu AluOp.Div a b }
{
    if b == 0 {
        u64::MAX
    } else {
        a.cast_signed()
            .wrapping_div(b.cast_signed())
            .cast_unsigned()
    }
}

#[inline]
fn divide_unsigned(a: u64, b: u64) -> u64
    ensures { result ≡ alu AluOp.Divu a b }
{
    if b == 0 { u64::MAX } else { a / b }
}

#[inline]
fn remainder(a: u64, b: u64) -> u64
    ensures { result ≡ alu AluOp.Rem a b }
{
    if b == 0 {
        a
    } else {
        a.cast_signed()
            .wrapping_rem(b.cast_signed())
            .cast_unsigned()
    }
}

#[inline]
fn remainder_unsigned(a: u64, b: u64) -> u64
    ensures { result ≡ alu AluOp.Remu a b }
{
    if b == 0 { a } else { a % b }
}

#[inline]
fn add_word(a: u64, b: u64) -> u64
    ensures { result ≡ alu AluOp.Addw a b }
{
    sign_extended(a.wrapping_add(b))
}

#[inline]
fn subtract_word(a: u64, b: u64) -> u64
    ensures { result ≡ alu AluOp.Subw a b }
{
    sign_extended(a.wrapping_sub(b))
}

#[inline]
fn shift_left_word(a: u64, b: u64) -> u64
    ensures { result ≡ alu AluOp.Sllw a b }
{
    sign_extended(a.wrapping_mul(1 << (b % 32)))
}

#[inline]
fn shift_right_word(a: u64, b: u64) -> u64
    ensures { result ≡ alu AluOp.Srlw a b }
{
    sign_extended(u64::from(lower_half(a) >> (b % 32)))
}

#[inline]
fn shift_right_signed_word(a: u64, b: u64) -> u64
    ensures { result ≡ alu AluOp.Sraw a b }
{
    i64::from(signed_lower_half(a) >> (b % 32)).cast_unsigned()
}

#[inline]
fn multiply_word(a: u64, b: u64) -> u64
    ensures { result ≡ alu AluOp.Mulw a b }
{
    sign_extended(a.wrapping_mul(b))
}

#[inline]
fn divide_word(a: u64, b: u64) -> u64
    ensures { result ≡ alu AluOp.Divw a b }
{
    if lower_half(b) == 0 {
        u64::MAX
    } else {
        sign_extended(signed_quotient(signed_lower_half(a), signed_lower_half(b)))
    }
}

#[inline]
fn divide_unsigned_word(a: u64, b: u64) -> u64
    ensures { result ≡ alu AluOp.Divuw a b }
{
    if lower_half(b) == 0 {
        u64::MAX
    } else {
        sign_extended(u64::from(lower_half(a) / lower_half(b)))
    }
}

#[inline]
fn remainder_word(a: u64, b: u64) -> u64
    ensures { result ≡ alu AluOp.Remw a b }
{
    if lower_half(b) == 0 {
        sign_extended(a)
    } else {
        sign_extended(signed_remainder(a, b))
    }
}

#[inline]
fn remainder_unsigned_word(a: u64, b: u64) -> u64
    ensures { result ≡ alu AluOp.Remuw a b }
{
    if lower_half(b) == 0 {
        sign_extended(a)
    } else {
        sign_extended(u64::from(lower_half(a) % lower_half(b)))
    }
}

/// What the operation gives of two registers. Additions are looked for first, since on many processors a jump by a table
/// costs more than a test.
///
/// References: the RISC-V unprivileged manual, "Integer Computational Instructions", "Multiplication Operations" and
/// "Division Operations".
#[inline(always)]
pub fn calculate(op: AluOp, a: u64, b: u64) -> u64
    ensures { result ≡ alu op a b }
{
    if let AluOp::Add = op {
        return add(a, b);
    }
    calculate_other(op, a, b)
}

/// The same of any operation, in a function of its own.
#[inline(never)]
fn calculate_other(op: AluOp, a: u64, b: u64) -> u64
    ensures { result ≡ alu op a b }
{
    calculate_any(op, a, b)
}

/// What any operation on a register and an immediate gives. Additions are looked for first.
///
/// References: the RISC-V unprivileged manual, "Integer Register-Immediate Instructions".
#[inline(always)]
pub fn calculate_immediate(op: ImmOp, a: u64, b: u64) -> u64
    ensures { result ≡ alu (with_register_operand op) a b }
{
    if let ImmOp::Addi = op {
        return add(a, b);
    }
    calculate_other_immediate(op, a, b)
}

/// The same of any operation, in a function of its own.
#[inline(never)]
fn calculate_other_immediate(op: ImmOp, a: u64, b: u64) -> u64
    ensures { result ≡ alu (with_register_operand op) a b }
{
    calculate_any(register_form(op), a, b)
}

/// The same of any operation.
#[inline(always)]
fn calculate_any(op: AluOp, a: u64, b: u64) -> u64
    ensures { result ≡ alu op a b }
{
    match op {
        AluOp::Add => add(a, b),
        AluOp::Sub => subtract(a, b),
        AluOp::Sll => shift_left(a, b),
        AluOp::Slt => is_less(a, b),
        AluOp::Sltu => is_below(a, b),
        AluOp::Xor => a ^ b,
        AluOp::Srl => shift_right(a, b),
        AluOp::Sra => shift_right_signed(a, b),
        AluOp::Or => a | b,
        AluOp::And => a & b,
        AluOp::Mul => multiply(a, b),
        AluOp::Mulh => multiply_upper(a, b),
        AluOp::Mulhsu => multiply_upper_mixed(a, b),
        AluOp::Mulhu => multiply_upper_unsigned(a, b),
        AluOp::Div => divide(a, b),
        AluOp::Divu => divide_unsigned(a, b),
        AluOp::Rem => remainder(a, b),
        AluOp::Remu => remainder_unsigned(a, b),
        AluOp::Addw => add_word(a, b),
        AluOp::Subw => subtract_word(a, b),
        AluOp::Sllw => shift_left_word(a, b),
        AluOp::Srlw => shift_right_word(a, b),
        AluOp::Sraw => shift_right_signed_word(a, b),
        AluOp::Mulw => multiply_word(a, b),
        AluOp::Divw => divide_word(a, b),
        AluOp::Divuw => divide_unsigned_word(a, b),
        AluOp::Remw => remainder_word(a, b),
        AluOp::Remuw => remainder_unsigned_word(a, b),
    }
}

/// The operation that does the same with a register in place of the immediate.
#[inline(always)]
fn register_form(op: ImmOp) -> AluOp
    ensures { result ≡ with_register_operand op }
{
    match op {
        ImmOp::Addi => AluOp::Add,
        ImmOp::Slti => AluOp::Slt,
        ImmOp::Sltiu => AluOp::Sltu,
        ImmOp::Xori => AluOp::Xor,
        ImmOp::Ori => AluOp::Or,
        ImmOp::Andi => AluOp::And,
        ImmOp::Slli => AluOp::Sll,
        ImmOp::Srli => AluOp::Srl,
        ImmOp::Srai => AluOp::Sra,
        ImmOp::Addiw => AluOp::Addw,
        ImmOp::Slliw => AluOp::Sllw,
        ImmOp::Srliw => AluOp::Srlw,
        ImmOp::Sraiw => AluOp::Sraw,
    }
}

/// Whether the branch is taken.
///
/// References: the RISC-V unprivileged manual, "Conditional Branches".
#[inline(always)]
pub fn holds(cmp: Cmp, a: u64, b: u64) -> bool
    ensures { result ≡ is_taken cmp a b }
{
    if let Cmp::Beq = cmp {
        return a == b;
    }
    if let Cmp::Bne = cmp {
        return a != b;
    }
    holds_in_order(cmp, a, b)
}

/// The same of any comparison.
#[inline(never)]
fn holds_in_order(cmp: Cmp, a: u64, b: u64) -> bool
    ensures { result ≡ is_taken cmp a b }
{
    match cmp {
        Cmp::Beq => a == b,
        Cmp::Bne => a != b,
        Cmp::Blt => a.cast_signed() < b.cast_signed(),
        Cmp::Bge => a.cast_signed() >= b.cast_signed(),
        Cmp::Bltu => a < b,
        Cmp::Bgeu => a >= b,
    }
}
