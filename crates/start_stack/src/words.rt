//! The words at the head of the stack.

ghost use Rattle.std.specs.Prelude.{◌≡◌, ◌≤◌, ◌<◌, ◌+◌, ◌^◌, ◌++◌, ℕ, length, slice_index, IfOk, OnOk};
ghost use Rattle.elf_file.specs.Reading.{image};
ghost use Rattle.start_stack.specs.Texts.{joined, addresses_from};
ghost use Rattle.start_stack.specs.Block.{block_at, random_at as random_place};
ghost use Rattle.start_stack.specs.Words.{auxiliary as auxiliary_pairs, words, bytes_of as bytes_of_words};

use crate::sizes::name_of;
use elf_file::Elf;
use file_tree::Text;
use guest_pages::PAGE_SIZE;
use std::alloc::{AllocError, Global};

/// The words, where the block begins at an address.
#[tactic(auto, unfolding(crate::specs::Words::words))]
pub(crate) fn words_of(
    alloc: Global,
    elf: &Elf,
    args: &[Text],
    env: &[Text],
    at: u64,
) -> Result<Vec<u64>, AllocError>
    requires begins { at ≡ block_at args.now env.now }
    requires inside { random_place args.now env.now < 2 ^ 38 }
    ensures { IfOk result (λ made. made.items ≡ words (image elf.now) args.now env.now) }
{
    let mut words = Vec::new(alloc);
    words.push(args.len() as u64)?;
    let env_at = add_addresses(&mut words, at, args)?;
    words.push(0)?;
    let name_at = add_addresses(&mut words, env_at, env)?;
    words.push(0)?;
    let random_at = name_at + name_of(args).len() as u64 + 1;
    words.extend_from_slice(&auxiliary(elf, random_at, name_at))?;
    Ok(words)
}

/// Adds the address of each text, where the first stands at an address, and gives the address behind the last.
fn add_addresses(words: &mut Vec<u64>, at: u64, texts: &[Text]) -> Result<u64, AllocError>
    requires { at + length (joined texts.now) < 2 ^ 38 }
    ensures added { OnOk result (words.new.items ≡ words.old.items ++ addresses_from at texts.now) }
    ensures end { IfOk result (λ end. end ≡ at + length (joined texts.now)) }
{
    let mut next = at;
    for text in texts {
        words.push(next)?;
        next += text.as_str().len() as u64 + 1;
    }
    Ok(next)
}

/// The auxiliary pairs.
fn auxiliary(elf: &Elf, random_at: u64, name_at: u64) -> [u64; 28]
    ensures { result ≡ auxiliary_pairs (image elf.now) random_at name_at }
{
    [
        3,
        elf.header_at,
        4,
        56,
        5,
        u64::from(elf.header_count),
        6,
        PAGE_SIZE,
        9,
        elf.entry,
        11,
        1000,
        12,
        1000,
        13,
        1000,
        14,
        1000,
        16,
        0x1105,
        23,
        0,
        25,
        random_at,
        31,
        name_at,
        0,
        0,
    ]
}

/// The bytes of the words, each of which has 64 bits, the lowest byte of each first.
#[tactic(auto, unfolding(crate::specs::Words::bytes_of))]
pub(crate) fn bytes_of(alloc: Global, words: &[u64]) -> Result<Vec<u8>, AllocError>
    ensures bytes { IfOk result (λ bytes. bytes.items ≡ bytes_of_words words.now) }
    ensures fit { (k : ℕ) → slice_index words.now k < 2 ^ 64 }
{
    let mut bytes = Vec::new(alloc);
    for word in words {
        bytes.extend_from_slice(&word.to_le_bytes())?;
    }
    Ok(bytes)
}
