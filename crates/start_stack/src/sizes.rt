//! How many bytes the first stack takes.

ghost use Rattle.std.specs.Prelude.{◌≡◌, ◌+◌, ◌-◌, ◌*◌, ◌^◌, min, length};
ghost use Rattle.start_stack.specs.Texts.{joined};
ghost use Rattle.start_stack.specs.Block.{name_of as first_of};
ghost use Rattle.start_stack.specs.Placing.{told_size};

use file_tree::Text;

/// The bytes of the stack whatever the texts are: the zero of the program's name, 16 random bytes, and 31 words.
const FIXED: u64 = 1 + 16 + 8 * 31;

/// The program's name: the first argument.
pub(crate) fn name_of(args: &[Text]) -> &str
    ensures { result.now ≡ first_of args.now }
{
    match args {
        [] => "",
        [name, ..] => name.as_str(),
    }
}

/// How many bytes the texts and the words of a first stack take together, where a number that passes 64 bits is told as
/// 2^64 - 1. It costs by the number of texts, and takes no memory.
#[tactic(auto, unfolding(crate::specs::Placing::stack_size, crate::specs::Block::block))]
pub fn size_of(args: &[Text], env: &[Text]) -> u64
    ensures { result ≡ told_size args.now env.now }
{
    let named = FIXED.saturating_add(name_of(args).len() as u64);
    with_texts(with_texts(named, args), env)
}

/// The size with that of texts: the bytes of each, its zero, and the word of its address.
fn with_texts(size: u64, texts: &[Text]) -> u64
    ensures { result ≡ min (size + length (joined texts.now) + 8 * length texts.now) (2 ^ 64 - 1) }
{
    let mut total = size;
    for text in texts {
        total = total
            .saturating_add(text.as_str().len() as u64)
            .saturating_add(9);
    }
    total
}
