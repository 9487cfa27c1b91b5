ghost use Rattle.std.specs.Prelude.{◌≡◌, ◌≢◌, ◌<◌, ◌≤◌, ◌++◌, ◌∷◌, ℕ, true, false, List, None, Some, Ok, Err, IfOk, IfSome, IsTrue, OnOk, OnErr, length, map};
ghost use Rattle.std.specs.List.{All};
ghost use Rattle.std.specs.List.Sorted.{IsBinarySearchResult, IsSearchInRange};
ghost use Rattle.std.specs.Ordering.{nat_cmp};
ghost use Rattle.std.specs.Cmp.Lexicographic.{slice_cmp};
ghost use Rattle.image_store.specs.Files.{listed, NamesFile, IsFileOf};
ghost use Rattle.image_store.specs.Changes.{IsChanged};
ghost use Rattle.image_store.specs.Listing.{HasDir, IsHousedAt, IsListing};
ghost use Rattle.image_store.specs.declared.entries.EntriesFault.TheVariants.{NoListing};

use crate::folder::{Entry, Kind, Listed};
use crate::listing::{is_listing, is_path, last_slash, order};
use file_tree::Text;
use std::alloc::{AllocError, Global};
use std::marker::Model;

/// Why entries weren't taken.
#[derive(Clone, Copy, Debug, PartialEq, Eq)]
pub enum EntriesFault {
    /// They are no listing.
    NoListing,
    /// Want of memory.
    Memory,
}

/// Why entries weren't changed.
#[derive(Clone, Copy, Debug, PartialEq, Eq)]
pub enum ChangeFault {
    /// They would be no listing, or something else stands there.
    Refused,
    /// Want of memory.
    Memory,
}

/// The entries of a folder in memory, which are a listing.
#[derive(Drop)]
pub struct Entries {
    list: Vec<Entry>,
}

impl Model for Entries {
    ghost use Rattle.std.specs.Prelude.{List, map};
    ghost use Rattle.image_store.specs.declared.folder.Entry.{Entry};
    ghost use Rattle.image_store.specs.Files.{listed};
    ghost use Rattle.image_store.specs.Listing.{IsListing};

    ghost Value = { List Entry };

    ghost view = { λ entries. entries.list.items };

    ghost invariant = { λ entries. IsListing (map listed entries.list.items) };
}

impl Entries {
    /// The entries, unless they are no listing. Its cost is that of looking whether they are one.
    pub fn new(alloc: Global, list: Vec<Entry>) -> Result<Entries, EntriesFault>
        ensures entries { IfOk result (λ entries. entries ≡ list.items) }
        ensures refused { result ≡ Err NoListing → IsListing (map listed list.items) → ⊥ }
    {
        match list_all(alloc, &list) {
            Ok(listing) => {
                if !is_listing(&listing) {
                    return Err(EntriesFault::NoListing);
                }
                Ok(Entries { list })
            }
            Err(_) => Err(EntriesFault::Memory),
        }
    }

    /// Their listing. Its cost is in the bytes of the paths.
    pub fn list(&self, alloc: Global) -> Result<Vec<Listed>, AllocError>
        ensures listing { IfOk result (λ listing. listing.items ≡ map listed self.now) }
        ensures sound { IsListing (map listed self.now) }
    {
        list_all(alloc, &self.list)
    }

    /// The bytes of the file at a path. It is found in time that is logarithmic in the number of entries.
    pub fn file(&self, path: &str) -> Option<&[u8]>
        ensures found { IfSome result (λ bytes. IsFileOf self.now path.now bytes.now) }
        ensures none { result ≡ None → NamesFile (map listed self.now) path.now → ⊥ }
    {
        file_of(&self.list, path)
    }

    /// Puts an entry at its path: a file in place of a file, or a file or a directory where nothing stands, in a directory
    /// that is there. Its cost is in the number of the entries behind it.
    pub fn put(&mut self, entry: Entry) -> Result<(), ChangeFault>
        ensures ok { OnOk result (IsChanged entry.path (Some entry) self.old self.new) }
        ensures err { OnErr result (self.new ≡ self.old) }
    {
        match place_of(&self.list, entry.path.as_str()) {
            Ok(place) => replace(&mut self.list, place, entry),
            Err(place) => insert(&mut self.list, place, entry),
        }
    }

    /// Takes an entry away under which none stands. Its cost is in the number of entries.
    pub fn remove(&mut self, path: &str) -> Result<(), ChangeFault>
        ensures ok { OnOk result (IsChanged path.now None self.old self.new) }
        ensures err { OnErr result (self.new ≡ self.old) }
    {
        match place_of(&self.list, path) {
            Ok(place) => take(&mut self.list, place, path),
            Err(_) => Err(ChangeFault::Refused),
        }
    }
}

/// Puts a file in place of one.
fn replace(entries: &mut Vec<Entry>, place: usize, entry: Entry) -> Result<(), ChangeFault>
    requires sound { IsListing (map listed entries.old.items) }
    requires within { place < length entries.old.items }
    requires position { IsBinarySearchResult (λ other. slice_cmp nat_cmp other.path entry.path) entries.old.items (Ok place) }
    ensures ok { OnOk result (IsChanged entry.path (Some entry) entries.old.items entries.new.items) }
    ensures err { OnErr result (entries.new.items ≡ entries.old.items) }
{
    if is_file(&entries[place]) {
        if is_file(&entry) {
            entries[place] = entry;
            return Ok(());
        }
    }
    Err(ChangeFault::Refused)
}

/// Puts an entry where none of its path stands.
fn insert(entries: &mut Vec<Entry>, place: usize, entry: Entry) -> Result<(), ChangeFault>
    requires sound { IsListing (map listed entries.old.items) }
    requires within { place ≤ length entries.old.items }
    requires position { IsBinarySearchResult (λ other. slice_cmp nat_cmp other.path entry.path) entries.old.items (Err place) }
    ensures ok { OnOk result (IsChanged entry.path (Some entry) entries.old.items entries.new.items) }
    ensures err { OnErr result (entries.new.items ≡ entries.old.items) }
{
    if !is_path(entry.path.as_str()) {
        return Err(ChangeFault::Refused);
    }
    if !is_housed(entries, entry.path.as_str().as_bytes()) {
        return Err(ChangeFault::Refused);
    }
    match entries.insert(place, entry) {
        Ok(()) => Ok(()),
        Err(_) => Err(ChangeFault::Memory),
    }
}

/// Takes the entry of a path away, unless one stands below it.
fn take(entries: &mut Vec<Entry>, place: usize, path: &str) -> Result<(), ChangeFault>
    requires sound { IsListing (map listed entries.old.items) }
    requires within { place < length entries.old.items }
    requires position { IsBinarySearchResult (λ other. slice_cmp nat_cmp other.path path.now) entries.old.items (Ok place) }
    ensures ok { OnOk result (IsChanged path.now None entries.old.items entries.new.items) }
    ensures err { OnErr result (entries.new.items ≡ entries.old.items) }
{
    if has_below(entries, path.as_bytes()) {
        return Err(ChangeFault::Refused);
    }
    let _ = entries.remove(place);
    Ok(())
}

fn is_file(entry: &Entry) -> bool
    ensures { result ≡ true → entry.now.kind ≡ Kind.File }
{
    match entry.kind {
        Kind::File => true,
        Kind::Dir => false,
        Kind::Other => false,
    }
}

fn is_dir(entry: &Entry) -> bool
    ensures { IsTrue result → entry.now.kind ≡ Kind.Dir }
{
    match entry.kind {
        Kind::Dir => true,
        Kind::File => false,
        Kind::Other => false,
    }
}

/// Whether the directory in which a path stands is there, or is the folder itself.
fn is_housed(entries: &[Entry], path: &[u8]) -> bool
    ensures { IsTrue result → IsHousedAt (map listed entries.now) path.now }
{
    match last_slash(path) {
        Some(slash) => has_dir(entries, &path[..slash]),
        None => true,
    }
}

fn has_dir(entries: &[Entry], path: &[u8]) -> bool
    ensures { IsTrue result → HasDir (map listed entries.now) path.now }
{
    match place_at(entries, path) {
        Ok(place) => is_dir(&entries[place]),
        Err(_) => false,
    }
}

/// Whether an entry stands below a path.
fn has_below(entries: &[Entry], path: &[u8]) -> bool
    ensures { result ≡ false → All (λ entry. (rest : List ℕ) → entry.path ≢ path.now ++ 47 ∷ rest) entries.now }
{
    for entry in entries {
        if is_below(entry.path.as_str().as_bytes(), path) {
            return true;
        }
    }
    false
}

/// Whether a path stands below another.
fn is_below(path: &[u8], other: &[u8]) -> bool
    ensures { result ≡ false → (rest : List ℕ) → path.now ≢ other.now ++ 47 ∷ rest }
{
    match path.strip_prefix(other) {
        Some(rest) => rest.first() == Some(&b'/'),
        None => false,
    }
}

/// The bytes of the file at a path.
fn file_of<'a>(entries: &'a [Entry], path: &str) -> Option<&'a [u8]>
    requires { IsListing (map listed entries.now) }
    ensures found { IfSome result (λ bytes. IsFileOf entries.now path.now bytes.now) }
    ensures none { result ≡ None → NamesFile (map listed entries.now) path.now → ⊥ }
{
    match place_of(entries, path) {
        Ok(place) => {
            let entry = &entries[place];
            match entry.kind {
                Kind::File => Some(entry.bytes.as_slice()),
                Kind::Dir => None,
                Kind::Other => None,
            }
        }
        Err(_) => None,
    }
}

fn list_all(alloc: Global, entries: &[Entry]) -> Result<Vec<Listed>, AllocError>
    ensures { IfOk result (λ listing. listing.items ≡ map listed entries.now) }
{
    let mut listing = Vec::with_capacity(alloc, entries.len())?;
    for entry in entries {
        listing.push(Listed {
            path: Text::new(alloc, entry.path.as_str())?,
            kind: entry.kind,
            size: entry.bytes.len() as u64,
        })?;
    }
    Ok(listing)
}

/// Where a path stands among entries that rise by it.
fn place_of(entries: &[Entry], path: &str) -> Result<usize, usize>
    ensures bound { IsSearchInRange result (length entries.now) }
    ensures position { IsBinarySearchResult (λ entry. slice_cmp nat_cmp entry.path path.now) entries.now result }
{
    entries.binary_search_by(|entry| order(&entry.path, path.as_bytes()))
}

/// The same of a path's bytes.
fn place_at(entries: &[Entry], path: &[u8]) -> Result<usize, usize>
    ensures bound { IsSearchInRange result (length entries.now) }
    ensures position { IsBinarySearchResult (λ entry. slice_cmp nat_cmp entry.path path.now) entries.now result }
{
    entries.binary_search_by(|entry| order(&entry.path, path))
}
