ghost use Rattle.std.specs.Prelude.{◌≡◌, ◌<◌, ◌≤◌, ◌+◌, ◌^◌};
ghost use Rattle.isa_decode.specs.Fields.{amount_5, amount_6, bits, immediate_b, immediate_i, immediate_j, immediate_s, immediate_u, reading};
ghost use Rattle.isa_decode.specs.Ranges.{IsAmount, IsImmediate, IsShort};

/// The field of the word from bit `high` down to bit `low`.
#[inline]
pub fn field(word: u32, high: u32, low: u32) -> u32
    requires order { low ≤ high }
    requires within { high < low + 31 }
    requires top { high < 32 }
    ensures { result ≡ bits word high low }
{
    (word >> low) % (1 << (high + 1 - low))
}

/// The register number at the five bits from `low` on.
#[inline]
fn register(word: u32, low: u32) -> u8
    requires { low ≤ 27 }
    ensures value { result ≡ bits word (low + 4) low }
    ensures small { result < 32 }
{
    field(word, low + 4, low) as u8
}

#[inline]
pub fn rd(word: u32) -> u8
    ensures value { result ≡ bits word 11 7 }
    ensures small { result < 32 }
{
    register(word, 7)
}

#[inline]
pub fn rs1(word: u32) -> u8
    ensures value { result ≡ bits word 19 15 }
    ensures small { result < 32 }
{
    register(word, 15)
}

#[inline]
pub fn rs2(word: u32) -> u8
    ensures value { result ≡ bits word 24 20 }
    ensures small { result < 32 }
{
    register(word, 20)
}

/// 2 for aq plus 1 for rl.
#[inline]
pub fn order(word: u32) -> u8
    ensures value { result ≡ bits word 26 25 }
    ensures small { result < 4 }
{
    field(word, 26, 25) as u8
}

/// The immediate of the I format.
#[inline]
#[tactic(auto, unfolding(crate::specs::Fields::immediate_i))]
pub fn immediate_i(word: u32) -> i64
    ensures value { result ≡ immediate_i word }
    ensures short { IsShort result }
{
    let number = i64::from(field(word, 31, 20));
    if number < 0x800 {
        number
    } else {
        number - 0x1000
    }
}

/// The immediate of the S format.
#[inline]
#[tactic(auto, unfolding(crate::specs::Fields::immediate_s))]
pub fn immediate_s(word: u32) -> i64
    ensures value { result ≡ immediate_s word }
    ensures short { IsShort result }
{
    let number = i64::from(field(word, 31, 25) * 32 + field(word, 11, 7));
    if number < 0x800 {
        number
    } else {
        number - 0x1000
    }
}

/// The immediate of the B format.
#[inline]
#[tactic(auto, unfolding(crate::specs::Fields::immediate_b))]
pub fn immediate_b(word: u32) -> i64
    ensures value { result ≡ immediate_b word }
    ensures even { IsImmediate (2 ^ 12) 2 result }
{
    let number = i64::from(
        field(word, 31, 31) * 0x1000
            + field(word, 7, 7) * 0x800
            + field(word, 30, 25) * 32
            + field(word, 11, 8) * 2,
    );
    if number < 0x1000 {
        number
    } else {
        number - 0x2000
    }
}

/// The immediate of the U format.
#[inline]
#[tactic(auto, unfolding(crate::specs::Fields::immediate_u))]
pub fn immediate_u(word: u32) -> i64
    ensures value { result ≡ immediate_u word }
    ensures upper { IsImmediate (2 ^ 31) (2 ^ 12) result }
{
    let number = i64::from(field(word, 31, 12)) * 0x1000;
    if number < 0x8000_0000 {
        number
    } else {
        number - 0x1_0000_0000
    }
}

/// The immediate of the J format.
#[inline]
#[tactic(auto, unfolding(crate::specs::Fields::immediate_j))]
pub fn immediate_j(word: u32) -> i64
    ensures value { result ≡ immediate_j word }
    ensures even { IsImmediate (2 ^ 20) 2 result }
{
    let number = i64::from(
        field(word, 31, 31) * 0x10_0000
            + field(word, 19, 12) * 0x1000
            + field(word, 20, 20) * 0x800
            + field(word, 30, 21) * 2,
    );
    if number < 0x10_0000 {
        number
    } else {
        number - 0x20_0000
    }
}

/// The amount of a shift of 64 bits.
#[inline]
pub fn amount_6(word: u32) -> i64
    ensures value { result ≡ amount_6 word }
    ensures small { IsAmount 64 result }
{
    i64::from(field(word, 25, 20))
}

/// The amount of a shift of 32 bits.
#[inline]
pub fn amount_5(word: u32) -> i64
    ensures value { result ≡ amount_5 word }
    ensures small { IsAmount 32 result }
{
    i64::from(field(word, 24, 20))
}
