//! The words as a whole.

ghost use Rattle.std.specs.Prelude.{◌≡◌, ◌∷◌, ℕ, List, IfOk, IfErr, drop, map};
ghost use Rattle.std.specs.Option.{option_to_list};
ghost use Rattle.std.specs.String.{string_bytes};
ghost use Rattle.cli_words.specs.Answer.{IsOrdered, IsOnlyOrder, IsFaultOf, plan_asked, asm_asked};
ghost use Rattle.cli_words.specs.Command.{IsAsked, IsAsmAsked, budget_of};
ghost use Rattle.cli_words.specs.Words.{solo, asm};

use crate::order::{AsmPlan, Order, Plan, WordsFault};
use crate::tail::{Options, push_copy, read_options};
use crate::word::{Front, is_file, is_name, is_same, is_value, split};
use file_tree::Text;
use std::alloc::{AllocError, Global};

/// The budget where none is given.
const BUDGET: u32 = 4_194_304;

/// Reads the words of a command line, without the program's own name. Costs, in time and memory, by the bytes of the
/// words.
///
/// Gives the one order that the words ask for. `At` names the first word such that no accepted list of words begins
/// with those up to it, or the number of words where one is missing. `Memory` is want of memory.
pub fn read(alloc: Global, words: &[String]) -> Result<Order, WordsFault>
    ensures ok { IfOk result (λ order. IsOrdered (map string_bytes words.now) order) }
    ensures only { IfOk result (λ order. IsOnlyOrder (map string_bytes words.now) order) }
    ensures err { IfErr result (λ fault. IsFaultOf (map string_bytes words.now) fault) }
{
    let Some(Front { word, rest }) = split(words) else {
        return Err(WordsFault::At(0));
    };
    if is_same(word, "solo") {
        return match read_solo(alloc, rest) {
            Ok(plan) => Ok(Order::Solo(plan)),
            Err(fault) => Err(fault),
        };
    }
    if is_same(word, "asm") {
        return match read_asm(alloc, rest) {
            Ok(plan) => Ok(Order::Asm(plan)),
            Err(fault) => Err(fault),
        };
    }
    Err(WordsFault::At(0))
}

/// Reads the words behind `solo`.
fn read_solo(alloc: Global, words: &[String]) -> Result<Plan, WordsFault>
    ensures ok { IfOk result (λ plan. IsAsked (solo ∷ map string_bytes words.now) (plan_asked plan)) }
    ensures err { IfErr result (λ fault. IsFaultOf (solo ∷ map string_bytes words.now) fault) }
{
    let Some(
        Front {
            word: folder,
            rest: behind,
        },
    ) = split(words)
    else {
        return Err(WordsFault::At(1));
    };
    if !is_value(folder) {
        return Err(WordsFault::At(1));
    }
    let Some(
        Front {
            word: program,
            rest: tail,
        },
    ) = split(behind)
    else {
        return Err(WordsFault::At(2));
    };
    if !is_file(program) {
        return Err(WordsFault::At(2));
    }
    let options = match read_options(alloc, tail) {
        Ok(options) => options,
        Err(WordsFault::At(index)) => return Err(WordsFault::At(index + 3)),
        Err(WordsFault::Memory) => return Err(WordsFault::Memory),
    };
    let rest = &tail[options.place..];
    match make_plan(alloc, folder, program, rest, options) {
        Ok(plan) => Ok(plan),
        Err(_) => Err(WordsFault::Memory),
    }
}

/// Reads the words behind `asm`.
fn read_asm(alloc: Global, words: &[String]) -> Result<AsmPlan, WordsFault>
    ensures ok { IfOk result (λ plan. IsAsmAsked (asm ∷ map string_bytes words.now) (asm_asked plan)) }
    ensures err { IfErr result (λ fault. IsFaultOf (asm ∷ map string_bytes words.now) fault) }
{
    let Some(
        Front {
            word: folder,
            rest: behind,
        },
    ) = split(words)
    else {
        return Err(WordsFault::At(1));
    };
    if !is_value(folder) {
        return Err(WordsFault::At(1));
    }
    let Some(
        Front {
            word: source,
            rest: last,
        },
    ) = split(behind)
    else {
        return Err(WordsFault::At(2));
    };
    if !is_file(source) {
        return Err(WordsFault::At(2));
    }
    let Some(
        Front {
            word: out,
            rest: more,
        },
    ) = split(last)
    else {
        return Err(WordsFault::At(3));
    };
    if !is_name(out) {
        return Err(WordsFault::At(3));
    }
    if let Some(Front { .. }) = split(more) {
        return Err(WordsFault::At(4));
    }
    match make_asm(alloc, folder, source, out) {
        Ok(plan) => Ok(plan),
        Err(_) => Err(WordsFault::Memory),
    }
}

fn make_asm(alloc: Global, folder: &str, source: &str, out: &str) -> Result<AsmPlan, AllocError>
    ensures folder { IfOk result (λ plan. plan.folder ≡ folder.now) }
    ensures source { IfOk result (λ plan. plan.source ≡ source.now) }
    ensures out { IfOk result (λ plan. plan.out ≡ out.now) }
{
    Ok(AsmPlan {
        folder: Text::new(alloc, folder)?,
        source: Text::new(alloc, source)?,
        out: Text::new(alloc, out)?,
    })
}

/// The plan of the folder and the program, the options and the words behind them.
fn make_plan(
    alloc: Global,
    folder: &str,
    program: &str,
    rest: &[String],
    options: Options,
) -> Result<Plan, AllocError>
    ensures folder { IfOk result (λ plan. plan.folder ≡ folder.now) }
    ensures program { IfOk result (λ plan. plan.program ≡ program.now) }
    ensures args { IfOk result (λ plan. plan.args.items ≡ drop 1 (map string_bytes rest.now)) }
    ensures env { IfOk result (λ plan. plan.env.items ≡ options.env.items) }
    ensures budget { IfOk result (λ plan. plan.budget ≡ budget_of (option_to_list options.budget)) }
    ensures input { IfOk result (λ plan. plan.input ≡ options.input) }
    ensures keep { IfOk result (λ plan. plan.keep ≡ options.keep) }
{
    Ok(Plan {
        folder: Text::new(alloc, folder)?,
        program: Text::new(alloc, program)?,
        args: copy_args(alloc, rest)?,
        budget: options.budget.unwrap_or(BUDGET),
        env: options.env,
        input: options.input,
        keep: options.keep,
    })
}

/// Copies the guest's words, which stand behind the divider, if there is one.
fn copy_args(alloc: Global, rest: &[String]) -> Result<Vec<Text>, AllocError>
    ensures { IfOk result (λ args. args.items ≡ drop 1 (map string_bytes rest.now)) }
{
    match rest {
        [] => Ok(Vec::new(alloc)),
        [_, words @ ..] => copy_words(alloc, words),
    }
}

fn copy_words(alloc: Global, words: &[String]) -> Result<Vec<Text>, AllocError>
    ensures { IfOk result (λ args. args.items ≡ map string_bytes words.now) }
{
    let mut args = Vec::new(alloc);
    for word in words {
        push_copy(alloc, &mut args, word.as_str())?;
    }
    Ok(args)
}
