//! The stack in memory.

ghost use Rattle.std.specs.Prelude.{◌≡◌, ◌≤◌, ◌<◌, ◌-◌, ◌%◌, length, None, IfOk, IfErr, OnOk, OnErr};
ghost use Rattle.elf_file.specs.Reading.{image};
ghost use Rattle.guest_pages.specs.Faults.{first_fault, writable};
ghost use Rattle.guest_pages.specs.Operations.{stored_pages, written};
ghost use Rattle.start_stack.specs.Block.{rounded_down as multiple_below};
ghost use Rattle.start_stack.specs.Contents.{IsContents, IsInside, IsUnmapped, filled};
ghost use Rattle.start_stack.specs.Found.{Finds};
ghost use Rattle.start_stack.specs.Placing.{Fits, IsRefused, stack_pointer, stack_size, with_pages, with_stack};
ghost use Rattle.guest_pages.specs.Limits.{most_stack_bytes, most_pages, stack_length, stack_end};

use crate::block::block_of;
use crate::fault::StackFault;
use crate::sizes::size_of;
use crate::words::{bytes_of, words_of};
use elf_file::Elf;
use file_tree::Text;
use guest_pages::{
    CHANGEABLE, MOST_STACK_BYTES, MapFault, Pages, STACK_END, STACK_LENGTH, STACK_PAGES,
};
use std::alloc::{AllocError, Global};

/// The byte address where the stack begins.
const STACK_START: u64 = STACK_END - STACK_LENGTH;

/// What goes into the stack: the block, and the words as bytes, each with the byte address where it begins.
#[derive(Drop)]
struct Contents {
    block_at: u64,
    block: Vec<u8>,
    pointer: u64,
    words: Vec<u8>,
}

/// Maps the first stack and fills it, and gives the stack pointer, a byte address and a multiple of 16. The stack is 2,048
/// pages that can be read and written, and ends at 0x3FFFFFE000; what stood there before is gone. The first argument is the
/// program's name. It is refused with `TooLong` exactly where the texts and words take more than 131,072 bytes, as `size_of`
/// tells them; then with `PagesFull` where more than 65,536 pages with a right would be stored; and with `Memory` where memory
/// is wanting. After a refusal the pages are as they were. It costs by the size of the stack.
///
/// References: System V ABI and RISC-V ELF psABI, "Process Initialization"; getauxval(3).
#[tactic(auto, using(crate::proofs::ContentFacts::pointer_aligned, crate::proofs::ContentFacts::pointer_inside))]
pub fn place(
    alloc: Global,
    pages: &mut Pages,
    elf: &Elf,
    args: &[Text],
    env: &[Text],
) -> Result<u64, StackFault>
    requires { 0 < length args.now }
    ensures pointer { IfOk result (λ sp. sp ≡ stack_pointer args.now env.now) }
    ensures aligned { IfOk result (λ sp. sp % 16 ≡ 0) }
    ensures inside { IfOk result (λ sp. (stack_end - stack_length ≤ sp) × (sp < stack_end)) }
    ensures memory { OnOk result (pages.new ≡ with_stack (image elf.now) args.now env.now pages.old) }
    ensures found { IfOk result (Finds (image elf.now) args.now env.now pages.new) }
    ensures fits { OnOk result (Fits args.now env.now pages.old) }
    ensures refused { IfErr result (IsRefused args.now env.now pages.old) }
    ensures err { OnErr result (pages.new ≡ pages.old) }
{
    let size = size_of(args, env);
    if size > MOST_STACK_BYTES {
        return Err(StackFault::TooLong { size });
    }
    match contents_of(alloc, elf, args, env) {
        Err(_) => Err(StackFault::Memory),
        Ok(contents) => fill(alloc, pages, &contents),
    }
}

/// What goes into the stack.
fn contents_of(
    alloc: Global,
    elf: &Elf,
    args: &[Text],
    env: &[Text],
) -> Result<Contents, AllocError>
    requires { stack_size args.now env.now ≤ most_stack_bytes }
    ensures { IfOk result (IsContents (image elf.now) args.now env.now) }
{
    let block = block_of(alloc, args, env)?;
    let block_at = rounded_down(STACK_END - block.len() as u64);
    let words = words_of(alloc, elf, args, env, block_at)?;
    let words = bytes_of(alloc, &words)?;
    let pointer = rounded_down(block_at - words.len() as u64);
    Ok(Contents {
        block_at,
        block,
        pointer,
        words,
    })
}

/// The last multiple of 16 that isn't above a number.
fn rounded_down(number: u64) -> u64
    ensures { result ≡ multiple_below number }
{
    number - number % 16
}

/// Maps the stack, puts the block and the words into it, and gives the stack pointer.
fn fill(alloc: Global, pages: &mut Pages, contents: &Contents) -> Result<u64, StackFault>
    requires block { IsInside contents.now.block_at contents.now.block.items }
    requires words { IsInside contents.now.pointer contents.now.words.items }
    ensures pointer { IfOk result (λ sp. sp ≡ contents.now.pointer) }
    ensures memory { OnOk result (pages.new ≡ filled contents.now pages.old) }
    ensures room { OnOk result (stored_pages (with_pages pages.old) ≤ most_pages) }
    ensures refused { IfErr result (IsUnmapped pages.old) }
    ensures err { OnErr result (pages.new ≡ pages.old) }
{
    match map_stack(alloc, pages) {
        Err(fault) => Err(fault),
        Ok(()) => {
            write(pages, contents.block_at, contents.block.as_slice());
            write(pages, contents.pointer, contents.words.as_slice());
            Ok(contents.pointer)
        }
    }
}

/// Maps the pages of the stack.
fn map_stack(alloc: Global, pages: &mut Pages) -> Result<(), StackFault>
    ensures memory { OnOk result (pages.new ≡ with_pages pages.old) }
    ensures room { OnOk result (stored_pages (with_pages pages.old) ≤ most_pages) }
    ensures refused { IfErr result (IsUnmapped pages.old) }
    ensures err { OnErr result (pages.new ≡ pages.old) }
{
    match pages.map(alloc, STACK_START, STACK_PAGES, CHANGEABLE) {
        Ok(()) => Ok(()),
        Err(MapFault::PagesFull { wanted }) => Err(StackFault::PagesFull { wanted }),
        Err(MapFault::NotMapped(_)) => unreachable!(),
        Err(MapFault::Memory) => Err(StackFault::Memory),
    }
}

/// Puts bytes into memory that can be written.
fn write(pages: &mut Pages, at: u64, bytes: &[u8])
    requires { first_fault writable pages.old at (length bytes.now) ≡ None }
    ensures { pages.new ≡ written at bytes.now pages.old }
{
    match pages.copy_in(at, bytes) {
        Ok(()) => {}
        Err(_) => unreachable!(),
    }
}
