//! What numbers' fields hold.

ghost use Rattle.std.specs.Prelude.{◌≡◌, ℕ, ◌*◌, ◌≤◌, ◌<◌, ◌^◌, ◌≤ℤ◌, ◌<ℤ◌, pos, neg_ℤ};
ghost use Rattle.isa_decode.specs.Fields.{reading};
ghost use Rattle.isa_asm.specs.Numbers.{high_part, low_part, natural, signed_64, stored, upper};

use crate::literal::Literal;

/// The number, if it is one of 64 bits with its sign.
#[tactic(auto, unfolding(crate::specs::Numbers::signed_64))]
pub fn signed_64(literal: Literal) -> Option<i64>
    ensures { result ≡ signed_64 literal }
{
    let size = literal.magnitude?;
    if literal.negative {
        if size <= 0x8000_0000_0000_0000 {
            Some(-(size as i128) as i64)
        } else {
            None
        }
    } else if size < 0x8000_0000_0000_0000 {
        Some(size as i64)
    } else {
        None
    }
}

/// The number in a field of which `half` is half of the range, as an unsigned number.
#[tactic(auto, unfolding(crate::specs::Numbers::stored))]
pub fn stored(half: u128, literal: Literal) -> Option<u64>
    requires small { half ≤ 2 ^ 63 }
    requires positive { 0 < half }
    ensures { result ≡ stored half literal }
{
    let size = literal.magnitude?;
    if literal.negative {
        if size <= half {
            Some(((2 * half - size) % (2 * half)) as u64)
        } else {
            None
        }
    } else if size < 2 * half {
        Some(size as u64)
    } else {
        None
    }
}

/// The number, if it isn't below 0.
#[tactic(auto, unfolding(crate::specs::Numbers::natural))]
pub fn natural(literal: Literal) -> Option<u128>
    ensures { result ≡ natural literal }
{
    let size = literal.magnitude?;
    if literal.negative && size != 0 {
        None
    } else {
        Some(size)
    }
}

/// The immediate of `lui` and `auipc` from its 20 bits.
#[tactic(auto, unfolding(crate::specs::Numbers::upper))]
pub fn upper(literal: Literal) -> Option<i64>
    ensures { result ≡ upper literal }
{
    let size = natural(literal)?;
    if size < 0x10_0000 {
        Some(upper_immediate(size as i64))
    } else {
        None
    }
}

fn upper_immediate(size: i64) -> i64
    requires low { pos 0 ≤ℤ size }
    requires high { size <ℤ pos 0x100000 }
    ensures { (n : ℕ) → size ≡ pos n → result ≡ reading (2 ^ 31) (n * 4096) }
{
    if size < 0x8_0000 {
        size * 4096
    } else {
        size * 4096 - 0x1_0000_0000
    }
}

/// The number's part for `addi` behind `lui` or `auipc`.
#[tactic(auto, unfolding(crate::specs::Numbers::low_part))]
pub fn low_part(number: i64) -> i64
    requires low { neg_ℤ (pos (2 ^ 40)) ≤ℤ number }
    requires high { number ≤ℤ pos (2 ^ 40) }
    ensures value { result ≡ low_part number }
    ensures least { neg_ℤ (pos 2048) ≤ℤ result }
    ensures most { result <ℤ pos 2048 }
{
    (number + 2048).rem_euclid(4096) - 2048
}
