ghost use Rattle.std.specs.Prelude.{◌≡◌, ◌<◌, ◌≤◌, ◌+◌, ◌^◌, pos};
ghost use Rattle.isa_decode.specs.Fields.{bits};
ghost use Rattle.isa_decode.specs.Ranges.{IsAmount, IsImmediate, IsShort};
ghost use Rattle.isa_compressed.specs.Immediates.{amount, branch_offset, doubleword_load_offset, doubleword_offset, doubleword_store_offset, jump_offset, small_immediate, stack_address, stack_step, upper_immediate, word_load_offset, word_offset, word_store_offset};

/// The field of the half word from bit `high` down to bit `low`.
#[inline]
pub fn field(half: u16, high: u32, low: u32) -> u32
    requires order { low ≤ high }
    requires top { high < 16 }
    ensures { result ≡ bits half high low }
{
    (u32::from(half) >> low) % (1 << (high + 1 - low))
}

/// The register number at bits 11 to 7.
#[inline]
pub fn rd(half: u16) -> u8
    ensures value { result ≡ bits half 11 7 }
    ensures small { result < 32 }
{
    field(half, 11, 7) as u8
}

/// The register number at bits 6 to 2.
#[inline]
pub fn rs2(half: u16) -> u8
    ensures value { result ≡ bits half 6 2 }
    ensures small { result < 32 }
{
    field(half, 6, 2) as u8
}

/// The register from 8 to 15 at bits 9 to 7.
#[inline]
pub fn high_register(half: u16) -> u8
    ensures value { result ≡ bits half 9 7 + 8 }
    ensures small { result < 32 }
{
    field(half, 9, 7) as u8 + 8
}

/// The register from 8 to 15 at bits 4 to 2.
#[inline]
pub fn low_register(half: u16) -> u8
    ensures value { result ≡ bits half 4 2 + 8 }
    ensures small { result < 32 }
{
    field(half, 4, 2) as u8 + 8
}

/// The immediate of c.addi4spn.
#[inline]
#[tactic(auto, unfolding(crate::specs::Immediates::stack_address))]
pub fn stack_address(half: u16) -> i64
    ensures value { result ≡ pos (stack_address half) }
    ensures short { IsShort result }
{
    i64::from(
        field(half, 10, 7) * 64
            + field(half, 12, 11) * 16
            + field(half, 5, 5) * 8
            + field(half, 6, 6) * 4,
    )
}

/// The immediate of c.lw and c.sw.
#[inline]
#[tactic(auto, unfolding(crate::specs::Immediates::word_offset))]
pub fn word_offset(half: u16) -> i64
    ensures value { result ≡ pos (word_offset half) }
    ensures short { IsShort result }
{
    i64::from(field(half, 5, 5) * 64 + field(half, 12, 10) * 8 + field(half, 6, 6) * 4)
}

/// The immediate of c.ld and c.sd.
#[inline]
#[tactic(auto, unfolding(crate::specs::Immediates::doubleword_offset))]
pub fn doubleword_offset(half: u16) -> i64
    ensures value { result ≡ pos (doubleword_offset half) }
    ensures short { IsShort result }
{
    i64::from(field(half, 6, 5) * 64 + field(half, 12, 10) * 8)
}

/// The immediate of c.lwsp.
#[inline]
#[tactic(auto, unfolding(crate::specs::Immediates::word_load_offset))]
pub fn word_load_offset(half: u16) -> i64
    ensures value { result ≡ pos (word_load_offset half) }
    ensures short { IsShort result }
{
    i64::from(field(half, 3, 2) * 64 + field(half, 12, 12) * 32 + field(half, 6, 4) * 4)
}

/// The immediate of c.ldsp.
#[inline]
#[tactic(auto, unfolding(crate::specs::Immediates::doubleword_load_offset))]
pub fn doubleword_load_offset(half: u16) -> i64
    ensures value { result ≡ pos (doubleword_load_offset half) }
    ensures short { IsShort result }
{
    i64::from(field(half, 4, 2) * 64 + field(half, 12, 12) * 32 + field(half, 6, 5) * 8)
}

/// The immediate of c.swsp.
#[inline]
#[tactic(auto, unfolding(crate::specs::Immediates::word_store_offset))]
pub fn word_store_offset(half: u16) -> i64
    ensures value { result ≡ pos (word_store_offset half) }
    ensures short { IsShort result }
{
    i64::from(field(half, 8, 7) * 64 + field(half, 12, 9) * 4)
}

/// The immediate of c.sdsp.
#[inline]
#[tactic(auto, unfolding(crate::specs::Immediates::doubleword_store_offset))]
pub fn doubleword_store_offset(half: u16) -> i64
    ensures value { result ≡ pos (doubleword_store_offset half) }
    ensures short { IsShort result }
{
    i64::from(field(half, 9, 7) * 64 + field(half, 12, 10) * 8)
}

/// The immediate of c.slli, c.srli and c.srai.
#[inline]
#[tactic(auto, unfolding(crate::specs::Immediates::amount))]
pub fn amount(half: u16) -> i64
    ensures value { result ≡ pos (amount half) }
    ensures small { IsAmount 64 result }
{
    i64::from(field(half, 12, 12) * 32 + field(half, 6, 2))
}

/// The immediate of c.addi, c.addiw, c.li and c.andi.
#[inline]
#[tactic(auto, unfolding(crate::specs::Immediates::small_immediate))]
pub fn small_immediate(half: u16) -> i64
    ensures value { result ≡ small_immediate half }
    ensures range { IsShort result }
{
    let number = i64::from(field(half, 12, 12) * 32 + field(half, 6, 2));
    if number < 0x20 { number } else { number - 0x40 }
}

/// The immediate of c.addi16sp.
#[inline]
#[tactic(auto, unfolding(crate::specs::Immediates::stack_step))]
pub fn stack_step(half: u16) -> i64
    ensures value { result ≡ stack_step half }
    ensures range { IsShort result }
{
    let number = i64::from(
        field(half, 12, 12) * 512
            + field(half, 4, 3) * 128
            + field(half, 5, 5) * 64
            + field(half, 2, 2) * 32
            + field(half, 6, 6) * 16,
    );
    if number < 0x200 {
        number
    } else {
        number - 0x400
    }
}

/// The immediate of c.lui.
#[inline]
#[tactic(auto, unfolding(crate::specs::Immediates::upper_immediate))]
pub fn upper_immediate(half: u16) -> i64
    ensures value { result ≡ upper_immediate half }
    ensures range { IsImmediate (2 ^ 31) (2 ^ 12) result }
{
    let number = i64::from(field(half, 12, 12) * 131072 + field(half, 6, 2) * 4096);
    if number < 0x20000 {
        number
    } else {
        number - 0x40000
    }
}

/// The immediate of c.j.
#[inline]
#[tactic(auto, unfolding(crate::specs::Immediates::jump_offset))]
pub fn jump_offset(half: u16) -> i64
    ensures value { result ≡ jump_offset half }
    ensures range { IsImmediate (2 ^ 20) 2 result }
{
    let number = i64::from(
        field(half, 12, 12) * 2048
            + field(half, 8, 8) * 1024
            + field(half, 10, 9) * 256
            + field(half, 6, 6) * 128
            + field(half, 7, 7) * 64
            + field(half, 2, 2) * 32
            + field(half, 11, 11) * 16
            + field(half, 5, 3) * 2,
    );
    if number < 0x800 {
        number
    } else {
        number - 0x1000
    }
}

/// The immediate of c.beqz and c.bnez.
#[inline]
#[tactic(auto, unfolding(crate::specs::Immediates::branch_offset))]
pub fn branch_offset(half: u16) -> i64
    ensures value { result ≡ branch_offset half }
    ensures range { IsImmediate (2 ^ 12) 2 result }
{
    let number = i64::from(
        field(half, 12, 12) * 256
            + field(half, 6, 5) * 64
            + field(half, 2, 2) * 32
            + field(half, 11, 10) * 8
            + field(half, 4, 3) * 2,
    );
    if number < 0x100 {
        number
    } else {
        number - 0x200
    }
}
