ghost use Rattle.std.specs.Prelude.{◌≡◌, ℕ, ◌==◌, [], length, All, OnOk, OnErr, IfOk};
ghost use Rattle.std.specs.Map.{keys_of};
ghost use Rattle.std.specs.Str.{IsUtf8};
ghost use Rattle.file_tree.specs.Entries.{entry_named, with_entry, without_entry, AreRising};

use crate::text::Text;
use std::alloc::{AllocError, Global};
use std::collections::BTreeMap;
use std::marker::Model;

/// The names of a directory, which contracts see with their inodes, in rising order.
#[derive(Drop)]
pub struct Names {
    entries: BTreeMap<Vec<u8>, u64>,
}

impl Model for Names {
    ghost use Rattle.file_tree.specs.Entries.{Entries, named};

    ghost Value = { Entries };

    ghost view = { λ names. named names.entries.entries };
}

impl Clone for Names {
    ghost is_clone = { λ names copy. copy ≡ names };

    fn clone(&self) -> Result<Names, AllocError> {
        Ok(Names {
            entries: self.entries.clone()?,
        })
    }
}

impl Names {
    /// No name. It takes no memory.
    pub(crate) fn new(alloc: Global) -> Names
        ensures { result ≡ [] }
    {
        Names {
            entries: BTreeMap::new(alloc),
        }
    }

    /// Whether there is no name.
    pub(crate) fn is_empty(&self) -> bool
        ensures { result ≡ (length self.now == 0) }
    {
        self.entries.is_empty()
    }

    /// The inode that a name leads to. Its cost is in the logarithm of the number of names.
    pub(crate) fn get(&self, name: &[u8]) -> Option<u64>
        ensures { result ≡ entry_named name.now self.now }
    {
        self.entries.get(name).copied()
    }

    /// Puts a name in, or gives it another inode. Its cost is in the logarithm of the number of names.
    pub(crate) fn insert(&mut self, name: Vec<u8>, inode: u64) -> Result<(), AllocError>
        ensures ok { OnOk result (self.new ≡ with_entry name.items inode self.old) }
        ensures err { OnErr result (self.new ≡ self.old) }
    {
        match self.entries.insert(name, inode) {
            Ok(_) => Ok(()),
            Err(_) => Err(AllocError),
        }
    }

    /// Takes a name out. Its cost is in the logarithm of the number of names.
    pub(crate) fn remove(&mut self, name: &[u8])
        ensures { self.new ≡ without_entry name.now self.old }
    {
        let _ = self.entries.remove(name);
    }

    /// The names as texts, in rising order. Its cost is in their bytes.
    pub(crate) fn texts(&self, alloc: Global) -> Result<Vec<Text>, AllocError>
        requires { All IsUtf8 (keys_of self.now) }
        ensures { IfOk result (λ texts. texts.items ≡ keys_of self.now) }
    {
        let mut texts = Vec::new(alloc);
        for name in self.entries.keys() {
            texts.push(text_of(alloc, name)?)?;
        }
        Ok(texts)
    }
}

/// The text whose bytes these are.
fn text_of(alloc: Global, bytes: &[u8]) -> Result<Text, AllocError>
    requires { IsUtf8 bytes.now }
    ensures { IfOk result (λ text. text ≡ bytes.now) }
{
    match str::from_utf8(bytes) {
        Ok(text) => Text::new(alloc, text),
        Err(_) => unreachable!(),
    }
}
