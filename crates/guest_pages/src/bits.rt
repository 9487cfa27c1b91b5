//! Bits in words of 64, the lowest of each word first.

ghost use Rattle.std.specs.Prelude.{◌≡◌, ◌≢◌, ◌+◌, ◌-◌, ◌*◌, ◌/◌, ◌^◌, ◌<◌, ◌≤◌, ◌==◌, ℕ, true, length, get_or, if◌then◌else◌};
ghost use Rattle.std.specs.Int.{bit_at};
ghost use Rattle.guest_pages.specs.Bits.{bit_of};
ghost use Rattle.guest_pages.specs.Ranges.{within};

/// Whether the bit with a number is set. None is past the last word.
#[tactic(auto, unfolding(crate::specs::Bits::bit_of))]
pub(crate) fn is_set(words: &[u64], place: u64) -> bool
    ensures { result ≡ bit_of words.now place }
{
    match words.get((place / 64) as usize) {
        Some(word) => (*word >> (place % 64)) & 1 == 1,
        None => false,
    }
}

/// How many of the bits up to one are all alike, and whether they are set. There is one at least; a whole word of equal bits
/// is passed as one, and so are all where there is no word.
pub(crate) fn run_below(words: &[u64], place: u64) -> (u64, bool)
    requires { place < 8192 }
    ensures some { 0 < result.0 }
    ensures size { result.0 ≤ place + 1 }
    ensures alike { (k : ℕ) → place < k + result.0 → k ≤ place → bit_of words.now k ≡ result.1 }
{
    if words.is_empty() {
        return (place + 1, false);
    }
    if place % 64 == 63 {
        if is_word(words, place / 64, 0) {
            return (64, false);
        }
        if is_word(words, place / 64, u64::MAX) {
            return (64, true);
        }
    }
    (1, is_set(words, place))
}

/// Whether there is such a word at a place.
fn is_word(words: &[u64], index: u64, word: u64) -> bool
    ensures { result ≡ true → get_or words.now index 0 ≡ word }
{
    match words.get(index as usize) {
        Some(found) => *found == word,
        None => false,
    }
}

/// A word with a bit that is set, or cleared.
fn with_bit(word: u64, place: u64, on: bool) -> u64
    requires { place < 64 }
    ensures same { (bit_at result place == 1) ≡ on }
    ensures others { (i : ℕ) → i < 64 → i ≢ place → bit_at result i ≡ bit_at word i }
{
    if on {
        word | 1 << place
    } else {
        word & !(1 << place)
    }
}

/// Sets a bit, or clears it.
fn put_bit(words: &mut [u64], place: u64, on: bool)
    requires { place / 64 < length words.old }
    ensures same { bit_of words.new place ≡ on }
    ensures others { (k : ℕ) → k ≢ place → bit_of words.new k ≡ bit_of words.old k }
    ensures size { length words.new ≡ length words.old }
{
    let index = (place / 64) as usize;
    words[index] = with_bit(words[index], place % 64, on);
}

/// A word of which all bits are set, or none.
fn word_of(on: bool) -> u64
    ensures { result ≡ (if on then 2 ^ 64 - 1 else 0) }
{
    if on { u64::MAX } else { 0 }
}

/// Sets all bits of a word, or clears them.
fn put_word(words: &mut [u64], index: u64, on: bool)
    requires { index < length words.old }
    ensures same { (k : ℕ) → k / 64 ≡ index → bit_of words.new k ≡ on }
    ensures others { (k : ℕ) → k / 64 ≢ index → bit_of words.new k ≡ bit_of words.old k }
    ensures size { length words.new ≡ length words.old }
{
    words[index as usize] = word_of(on);
}

/// Sets some bits from one on, a whole word or one bit, or clears them; how many.
fn put_some(words: &mut [u64], place: u64, count: u64, on: bool) -> u64
    requires some { 0 < count }
    requires within { place + count ≤ 64 * length words.old }
    ensures some { 0 < result }
    ensures few { result ≤ count }
    ensures bits { (k : ℕ) → bit_of words.new k ≡ (if within place result k then on else bit_of words.old k) }
    ensures size { length words.new ≡ length words.old }
{
    if place % 64 == 0 && count >= 64 {
        put_word(words, place / 64, on);
        64
    } else {
        put_bit(words, place, on);
        1
    }
}

/// Sets `count` bits from one on, or clears them. Costs by the words, and by up to 126 bits.
fn put_bits(words: &mut [u64], first: u64, count: u64, on: bool)
    requires small { first + count ≤ 8192 }
    requires within { first + count ≤ 64 * length words.old }
    ensures bits { (k : ℕ) → bit_of words.new k ≡ (if within first count k then on else bit_of words.old k) }
    ensures size { length words.new ≡ length words.old }
{
    let mut done = 0;
    'putting: while done < count {
        done += put_some(words, first + done, count - done, on);
    }
}

/// Sets `count` bits from one on, or clears them. Those past the last word are clear.
pub(crate) fn mark_bits(words: &mut [u64], first: u64, count: u64, on: bool)
    requires small { first + count ≤ 8192 }
    requires room { on ≡ true → 128 ≤ length words.old }
    ensures bits { (k : ℕ) → bit_of words.new k ≡ (if within first count k then on else bit_of words.old k) }
    ensures size { length words.new ≡ length words.old }
{
    let room = 64 * words.len().min(128) as u64;
    if first < room {
        put_bits(words, first, count.min(room - first), on);
    }
}
