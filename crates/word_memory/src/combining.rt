ghost use Rattle.std.specs.Prelude.{◌≡◌, ◌<◌, ◌^◌, false, int_lt};
ghost use Rattle.word_memory.specs.Atomics.{combined, cut, filled, signed};

use isa_decode::AmoOp;

/// The lowest 64 or 32 bits.
#[inline]
pub fn cut_to(wide: bool, value: u64) -> u64
    ensures { result ≡ cut wide value }
{
    if wide { value } else { value % 0x1_0000_0000 }
}

/// A word that was read, sign-extended; a doubleword as it is.
#[inline]
pub fn fill(wide: bool, value: u64) -> u64
    requires { wide ≡ false → value < 2 ^ 32 }
    ensures { result ≡ filled wide value }
{
    if wide {
        value
    } else {
        sign_extended(value as u32)
    }
}

#[inline]
fn sign_extended(value: u32) -> u64
    ensures { result ≡ filled false value }
{
    i64::from(value.cast_signed()).cast_unsigned()
}

/// What the operation writes, of an old value and an operand of the width.
///
/// References: the RISC-V unprivileged manual, "Atomic Memory Operations".
#[inline]
pub fn combine(op: AmoOp, wide: bool, old: u64, operand: u64) -> u64
    requires old { wide ≡ false → old < 2 ^ 32 }
    requires operand { wide ≡ false → operand < 2 ^ 32 }
    ensures { result ≡ combined op wide old operand }
{
    match op {
        AmoOp::Amoswap => operand,
        AmoOp::Amoadd => cut_to(wide, old.wrapping_add(operand)),
        AmoOp::Amoxor => old ^ operand,
        AmoOp::Amoand => old & operand,
        AmoOp::Amoor => old | operand,
        AmoOp::Amomin => {
            if is_less(wide, old, operand) {
                old
            } else {
                operand
            }
        }
        AmoOp::Amomax => {
            if is_less(wide, old, operand) {
                operand
            } else {
                old
            }
        }
        AmoOp::Amominu => { if old < operand { old } else { operand } }
        AmoOp::Amomaxu => { if old < operand { operand } else { old } }
    }
}

/// Whether the first number is the lesser, both read in two's complement of the width.
#[inline]
fn is_less(wide: bool, a: u64, b: u64) -> bool
    requires a { wide ≡ false → a < 2 ^ 32 }
    requires b { wide ≡ false → b < 2 ^ 32 }
    ensures { result ≡ int_lt (signed wide a) (signed wide b) }
{
    if wide {
        a.cast_signed() < b.cast_signed()
    } else {
        (a as u32).cast_signed() < (b as u32).cast_signed()
    }
}
