//! Instructions that were found, kept by their address.

ghost use Rattle.std.specs.Prelude.{◌≡◌, ◌<◌, List, IfOk};
ghost use Rattle.std.specs.List.{All};
ghost use Rattle.guest_pages.specs.Ranges.{Range};
ghost use Rattle.isa_step.specs.Known.{IsKnown};

use isa_decode::Instr;
use std::alloc::{AllocError, Global};
use std::marker::Model;

/// An instruction, its byte address, and its number of bytes: 2 or 4, or 0 where nothing is kept. Whether it accesses memory
/// or transfers control tells which form to look for first, and changes no answer.
#[derive(Clone, Copy)]
pub struct Known {
    pub address: u64,
    pub size: u8,
    pub accesses: bool,
    pub transfers: bool,
    pub instr: Instr,
}

/// Instructions that were found, each at the place that its address has, of which there are 4,096; two whose addresses
/// share a place take turns. What can be executed can't be written, so that none of them changes. Contracts see the
/// places.
#[derive(Drop)]
pub struct Decoder {
    places: Box<[Known; 4096]>,
}

impl Model for Decoder {
    ghost use Rattle.std.specs.Prelude.{List};
    ghost use Rattle.isa_step.specs.declared.decoder.Known.{Known};

    ghost Value = { List Known };

    ghost view = { λ decoder. decoder.places.value };
}

/// The place of an address.
#[inline(always)]
fn place(address: u64) -> usize
    ensures { result < 4096 }
{
    (address / 2 % 4096) as usize
}

impl Decoder {
    /// Nothing is kept. It takes 128 KiB.
    pub fn new(alloc: Global) -> Result<Decoder, AllocError>
        ensures { IfOk result (λ decoder. (memory : List Range) → All (IsKnown memory) decoder) }
    {
        let nothing = Known {
            address: 0,
            size: 0,
            accesses: false,
            transfers: false,
            instr: Instr::Ecall,
        };
        let places = Box::new(alloc, [nothing; 4096])?;
        Ok(Decoder { places })
    }

    /// What is kept at the place of an address, which may be another's.
    #[inline(always)]
    pub fn at(&self, address: u64) -> &Known
        ensures { (memory : List Range) → All (IsKnown memory) self.now → IsKnown memory result.now }
    {
        known_at(&self.places, address)
    }

    /// Keeps an instruction.
    pub fn keep(&mut self, known: Known)
        ensures { (memory : List Range) → All (IsKnown memory) self.old → IsKnown memory known → All (IsKnown memory) self.new }
    {
        self.places[place(known.address)] = known;
    }
}

/// The same for the places.
#[inline(always)]
fn known_at(places: &[Known; 4096], address: u64) -> &Known
    ensures { (memory : List Range) → All (IsKnown memory) places.now → IsKnown memory result.now }
{
    &places[place(address)]
}
