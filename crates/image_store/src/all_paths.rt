//! All paths of a tree.

ghost use Rattle.std.specs.Prelude.{◌≡◌, ◌<◌, ◌++◌, ℕ, Some, IfOk, OnOk, [], length, slice_index_or};
ghost use Rattle.std.specs.List.Sorted.{IsStrictlySortedBy};
ghost use Rattle.file_tree.specs.Nodes.{kind_in, names_in};
ghost use Rattle.file_tree.specs.declared.kind.Kind.TheVariants as nodes;
ghost use Rattle.image_store.specs.AllPaths.{AreAllPaths, HaveAll, below, path_under as under_path, paths_under};

use crate::listing::order;
use file_tree::{Inode, Kind, Text, Tree};
use std::alloc::{AllocError, Global};
use std::cmp::Ordering;

/// All paths of a tree in rising order of their bytes. Its cost is in the bytes of the paths, times the logarithm of their
/// number, and for each name of a path a look-up in a directory.
pub(crate) fn all_paths(alloc: Global, tree: &Tree) -> Result<Vec<Text>, AllocError>
    ensures { IfOk result (λ paths. AreAllPaths tree.now paths.items) }
{
    let mut paths = find_paths(alloc, tree)?;
    paths.sort_by(|one, other| order(one, other.as_str().as_bytes()))?;
    paths.dedup_by(|one, other| order(one, other.as_str().as_bytes()) == Ordering::Equal);
    Ok(paths)
}

/// All paths of a tree: those of the root's entries, and behind them in turn those of the entries below each.
fn find_paths(alloc: Global, tree: &Tree) -> Result<Vec<Text>, AllocError>
    ensures { IfOk result (λ paths. HaveAll tree.now paths.items) }
{
    let mut paths = Vec::new(alloc);
    let root = tree.root();
    push_names(alloc, tree, root, "", &mut paths)?;
    for place in 0..usize::MAX {
        if place == paths.len() {
            return Ok(paths);
        }
        push_below(alloc, tree, place, &mut paths)?;
    }
    // no list is so long
    unreachable!()
}

/// Puts the paths of the entries of a path's directory behind the others.
fn push_below(
    alloc: Global,
    tree: &Tree,
    place: usize,
    paths: &mut Vec<Text>,
) -> Result<(), AllocError>
    requires { place < length paths.old.items }
    ensures { OnOk result (paths.new.items ≡ paths.old.items ++ below tree.now (slice_index_or paths.old.items place [])) }
{
    let path = Text::new(alloc, paths[place].as_str())?;
    match tree.walk(tree.root(), path.as_str().as_bytes()) {
        Ok(inode) => match tree.kind(inode) {
            Kind::Dir => push_names(alloc, tree, inode, path.as_str(), paths),
            Kind::File => Ok(()),
        },
        Err(_) => Ok(()),
    }
}

/// Puts the paths of a directory's entries behind the others.
#[tactic(auto, using(crate::proofs::AllPathFacts::names_more))]
fn push_names(
    alloc: Global,
    tree: &Tree,
    dir: Inode,
    path: &str,
    paths: &mut Vec<Text>,
) -> Result<(), AllocError>
    requires { kind_in tree.now dir ≡ Some nodes.Dir }
    ensures { OnOk result (paths.new.items ≡ paths.old.items ++ paths_under path.now (names_in tree.now.nodes dir)) }
{
    let names = tree.names(alloc, dir)?;
    for name in &names {
        paths.push(path_under(alloc, path, name.as_str())?)?;
    }
    Ok(())
}

/// The path of a name in a directory, which has none if it is the root.
fn path_under(alloc: Global, path: &str, name: &str) -> Result<Text, AllocError>
    ensures { IfOk result (λ under. under ≡ under_path path.now name.now) }
{
    let mut under = String::from_str(alloc, path)?;
    if !under.is_empty() {
        under.push('/')?;
    }
    under.push_str(name)?;
    Ok(Text::from_string(under))
}
