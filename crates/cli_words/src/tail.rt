//! The options, up to the guest's words.

ghost use Rattle.std.specs.Prelude.{◌≡◌, ◌<◌, ◌++◌, ◌∷◌, ◌+◌, ℕ, [], true, false, IfOk, IfErr, OnOk, MatchResult, drop, length, map, vec_len};
ghost use Rattle.std.specs.String.{string_bytes};
ghost use Rattle.cli_words.specs.Words.{budget_name, env_name, input_name, keep_name};
ghost use Rattle.cli_words.specs.Tail.{IsReadBy, IsEnd, IsFound, IsWrongBehind, IsTailFault};

use crate::order::WordsFault;
use crate::word::{Front, is_entry, is_file, is_same, read_budget, split};
use file_tree::Text;
use std::alloc::{AllocError, Global};

/// How many entries of the environment there may be.
const MOST_ENTRIES: usize = 64;

/// The options that are read.
#[derive(Drop)]
pub struct Options {
    pub budget: Option<u32>,
    pub env: Vec<Text>,
    pub input: Option<Text>,
    pub keep: bool,
    /// How many words are read.
    pub place: usize,
}

/// What stands where an option may stand.
enum Found<'a> {
    Budget(u32),
    Env(&'a str),
    Input(&'a str),
    Keep,
    /// The divider, or no word.
    End,
}

/// Reads options up to the guest's words, or gives the index of the first wrong word.
pub fn read_options(alloc: Global, words: &[String]) -> Result<Options, WordsFault>
    ensures ok { IfOk result (λ options. IsReadBy (map string_bytes words.now) options) }
    ensures end { IfOk result (λ options. IsEnd (drop options.place (map string_bytes words.now))) }
    ensures err { IfErr result (λ fault. IsTailFault (map string_bytes words.now) fault) }
{
    let mut options = Options {
        budget: None,
        env: Vec::new(alloc),
        input: None,
        keep: false,
        place: 0,
    };
    loop {
        match options.step(alloc, words) {
            Ok(true) => {}
            Ok(false) => return Ok(options),
            Err(fault) => return Err(fault),
        }
    }
}

impl Options {
    /// Reads one option, if one follows.
    fn step(&mut self, alloc: Global, words: &[String]) -> Result<bool, WordsFault>
        requires { IsReadBy (map string_bytes words.now) self.old }
        ensures ok { OnOk result (IsReadBy (map string_bytes words.now) self.new) }
        ensures more { IfOk result (λ more. more ≡ true → self.old.place < self.new.place) }
        ensures end { IfOk result (λ more. more ≡ false → IsEnd (drop self.new.place (map string_bytes words.now))) }
        ensures err { IfErr result (λ fault. IsTailFault (map string_bytes words.now) fault) }
    {
        match self.next(&words[self.place..]) {
            Ok(Found::End) => Ok(false),
            Ok(Found::Budget(budget)) => {
                self.budget = Some(budget);
                self.place += 2;
                Ok(true)
            }
            Ok(Found::Env(entry)) => match push_copy(alloc, &mut self.env, entry) {
                Ok(()) => {
                    self.place += 2;
                    Ok(true)
                }
                Err(_) => Err(WordsFault::Memory),
            },
            Ok(Found::Input(name)) => match Text::new(alloc, name) {
                Ok(input) => {
                    self.input = Some(input);
                    self.place += 2;
                    Ok(true)
                }
                Err(_) => Err(WordsFault::Memory),
            },
            Ok(Found::Keep) => {
                self.keep = true;
                self.place += 1;
                Ok(true)
            }
            Err(index) => Err(WordsFault::At(self.place + index)),
        }
    }

    /// What stands in front of words, or the index of the first wrong one.
    fn next<'a>(&self, words: &'a [String]) -> Result<Found<'a>, usize>
        ensures { MatchResult result (IsFound self.now (map string_bytes words.now)) (IsWrongBehind self.now (map string_bytes words.now)) }
    {
        let Some(Front { word, rest }) = split(words) else {
            return Ok(Found::End);
        };
        if is_same(word, "--") {
            return Ok(Found::End);
        }
        if is_same(word, "--budget") {
            return self.next_budget(rest);
        }
        if is_same(word, "--env") {
            return self.next_entry(rest);
        }
        if is_same(word, "--input") {
            return self.next_input(rest);
        }
        if is_same(word, "--keep") {
            return self.next_keep(rest);
        }
        Err(0)
    }

    fn next_budget<'a>(&self, values: &'a [String]) -> Result<Found<'a>, usize>
        ensures { MatchResult result (IsFound self.now (budget_name ∷ map string_bytes values.now)) (IsWrongBehind self.now (budget_name ∷ map string_bytes values.now)) }
    {
        if self.budget.is_some() {
            return Err(0);
        }
        let Some(Front { word, .. }) = split(values) else {
            return Err(1);
        };
        match read_budget(word) {
            Some(budget) => Ok(Found::Budget(budget)),
            None => Err(1),
        }
    }

    fn next_entry<'a>(&self, values: &'a [String]) -> Result<Found<'a>, usize>
        ensures { MatchResult result (IsFound self.now (env_name ∷ map string_bytes values.now)) (IsWrongBehind self.now (env_name ∷ map string_bytes values.now)) }
    {
        if self.env.len() >= MOST_ENTRIES {
            return Err(0);
        }
        let Some(Front { word, .. }) = split(values) else {
            return Err(1);
        };
        if !is_entry(word) {
            return Err(1);
        }
        Ok(Found::Env(word))
    }

    fn next_input<'a>(&self, values: &'a [String]) -> Result<Found<'a>, usize>
        ensures { MatchResult result (IsFound self.now (input_name ∷ map string_bytes values.now)) (IsWrongBehind self.now (input_name ∷ map string_bytes values.now)) }
    {
        if self.input.is_some() {
            return Err(0);
        }
        let Some(Front { word, .. }) = split(values) else {
            return Err(1);
        };
        if !is_file(word) {
            return Err(1);
        }
        Ok(Found::Input(word))
    }

    fn next_keep<'a>(&self, rest: &'a [String]) -> Result<Found<'a>, usize>
        ensures { MatchResult result (IsFound self.now (keep_name ∷ map string_bytes rest.now)) (IsWrongBehind self.now (keep_name ∷ map string_bytes rest.now)) }
    {
        if self.keep {
            return Err(0);
        }
        Ok(Found::Keep)
    }
}

/// Adds a copy of a text at the end.
pub fn push_copy(alloc: Global, texts: &mut Vec<Text>, text: &str) -> Result<(), AllocError>
    ensures { OnOk result (texts.new.items ≡ texts.old.items ++ text.now ∷ []) }
{
    let copy = Text::new(alloc, text)?;
    match texts.push(copy) {
        Ok(()) => Ok(()),
        Err(_) => Err(AllocError),
    }
}
