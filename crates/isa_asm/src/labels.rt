//! Where labels stand.

ghost use Rattle.std.specs.Prelude.{◌≡◌, ◌<◌, ◌≤◌, ◌^◌, ◌+◌, ℕ, List, map, Ok, OnOk, IfOk, IfSome};
ghost use Rattle.std.specs.Option.{option_map};
ghost use Rattle.isa_asm.specs.File.{entry_of};
ghost use Rattle.isa_asm.specs.Places.{address_at, data_base, places_of, rounded};
ghost use Rattle.isa_asm.specs.Seen.{meaning_seen, noted, piece_seen, places_seen, spot_in};

use crate::layout::{Layout, START, Spot};
use crate::meaning::Meaning;
use crate::source::{Piece, piece_meaning};
use std::alloc::{AllocError, Global};
use std::collections::BTreeMap;

/// What is known of all statements: where labels stand, and how many bytes the text has.
#[derive(Drop)]
pub struct Labels<'a> {
    pub spots: BTreeMap<&'a [u8], Spot>,
    pub text: u32,
}

/// Finds the labels of statements. Takes time that the number of bytes times the logarithm of the number of labels bounds.
pub fn place_labels<'a>(alloc: Global, pieces: &[Piece<'a>]) -> Result<Labels<'a>, AllocError>
    ensures { IfOk result (λ labels. places_seen labels ≡ places_of (map piece_seen pieces.now)) }
{
    let mut spots = BTreeMap::new(alloc);
    let mut layout = START;
    for (index, piece) in pieces.iter().enumerate() {
        match piece_meaning(piece) {
            Ok(meaning) => {
                note(&mut spots, index, layout, &meaning)?;
                layout = layout.after(&meaning);
            }
            Err(_) => {}
        }
    }
    Ok(Labels {
        spots,
        text: layout.text_size,
    })
}

/// Keeps where a label stands, if the statement is one that stood nowhere before.
fn note<'a>(
    spots: &mut BTreeMap<&'a [u8], Spot>,
    index: usize,
    layout: Layout,
    meaning: &Meaning<'a>,
) -> Result<(), AllocError>
    ensures { OnOk result ((name : List ℕ) → spot_in spots.new name ≡ noted name (spot_in spots.old name) index layout (Ok (meaning_seen meaning.now))) }
{
    match *meaning {
        Meaning::Named(name) => {
            if !spots.contains_key(name) {
                spots.insert(name, layout.here(index))?;
            }
            Ok(())
        }
        _ => Ok(()),
    }
}

impl Labels<'_> {
    /// Where a label stands first.
    pub fn spot(&self, name: &[u8]) -> Option<Spot>
        ensures { result ≡ (places_seen self.now).spot name.now }
    {
        match self.spots.get(name) {
            Some(spot) => Some(*spot),
            None => None,
        }
    }

    /// The address of a statement.
    pub fn address(&self, spot: Spot) -> u64
        ensures value { result ≡ address_at (places_seen self.now).text spot }
        ensures small { result < 2 ^ 34 }
    {
        let base = if spot.in_data {
            data_base(u64::from(self.text))
        } else {
            0x1_0000
        };
        base + u64::from(spot.place)
    }

    /// The address of a label.
    pub fn label(&self, name: &[u8]) -> Option<u64>
        ensures value { result ≡ option_map (address_at (places_seen self.now).text) ((places_seen self.now).spot name.now) }
        ensures small { IfSome result (λ address. address < 2 ^ 34) }
    {
        match self.spot(name) {
            Some(spot) => Some(self.address(spot)),
            None => None,
        }
    }
}

/// The address of `_start`, or the text's.
pub fn entry_of(labels: &Labels<'_>) -> u64
    ensures { result ≡ entry_of (places_seen labels.now) }
{
    match labels.label(b"_start") {
        Some(address) => address,
        None => 0x1_0000,
    }
}

/// The multiple of a page's size at or above a number.
pub fn rounded(number: u64) -> u64
    requires { number < 2 ^ 63 }
    ensures value { result ≡ rounded number }
    ensures small { result ≤ number + 4095 }
{
    (number + 4095) / 4096 * 4096
}

/// The address of the data behind a text.
pub fn data_base(text: u64) -> u64
    requires { text < 2 ^ 63 }
    ensures value { result ≡ data_base text }
    ensures small { result ≤ text + 0x10FFF }
{
    0x1_0000 + rounded(text)
}
