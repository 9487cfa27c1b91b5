//! The block of texts at the end of the stack.

ghost use Rattle.std.specs.Prelude.{◌≡◌, ◌<◌, ◌++◌, IfOk, OnOk};
ghost use Rattle.start_stack.specs.Texts.{joined, with_zero};
ghost use Rattle.start_stack.specs.Block.{block, random_bytes};

use crate::sizes::name_of;
use file_tree::Text;
use guest_pages::random_byte;
use std::alloc::{AllocError, Global};

/// The bytes of the block.
#[tactic(auto, unfolding(crate::specs::Block::block))]
pub(crate) fn block_of(alloc: Global, args: &[Text], env: &[Text]) -> Result<Vec<u8>, AllocError>
    ensures { IfOk result (λ bytes. bytes.items ≡ block args.now env.now) }
{
    let mut bytes = Vec::new(alloc);
    add_texts(&mut bytes, args)?;
    add_texts(&mut bytes, env)?;
    add_text(&mut bytes, name_of(args))?;
    add_random(&mut bytes)?;
    Ok(bytes)
}

/// Adds the texts, one after the other.
fn add_texts(bytes: &mut Vec<u8>, texts: &[Text]) -> Result<(), AllocError>
    ensures { OnOk result (bytes.new.items ≡ bytes.old.items ++ joined texts.now) }
{
    for text in texts {
        add_text(bytes, text.as_str())?;
    }
    Ok(())
}

/// Adds a text with its zero.
fn add_text(bytes: &mut Vec<u8>, text: &str) -> Result<(), AllocError>
    ensures { OnOk result (bytes.new.items ≡ bytes.old.items ++ with_zero text.now) }
{
    bytes.extend_from_slice(text.as_bytes())?;
    bytes.push(0)?;
    Ok(())
}

/// Adds the first 16 random bytes.
fn add_random(bytes: &mut Vec<u8>) -> Result<(), AllocError>
    ensures { OnOk result (bytes.new.items ≡ bytes.old.items ++ random_bytes 16) }
{
    for k in 0..16u64 {
        bytes.push(random_byte(k))?;
    }
    Ok(())
}
