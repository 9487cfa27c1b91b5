ghost use Rattle.std.specs.Prelude.{◌≡◌, Some, IfSome};
ghost use Rattle.file_tree.specs.Nodes.{Has, kind_in};
ghost use Rattle.file_tree.specs.declared.kind.Kind.TheVariants.{File};

use super::*;
use std::alloc::{AllocError, Global};

#[test]
fn a_text_keeps_its_bytes(rt: HostRuntime) -> Result<(), AllocError> {
    let text = Text::new(rt.alloc(), "häl")?;
    assert_eq!(rt; text.as_str(), "häl");
    assert_eq!(rt; text.as_str().len(), 4);
    let string = text.into_string();
    assert_eq!(rt; string.as_str(), "häl");
    assert_eq!(rt; Text::from_string(string).as_str(), "häl");
    Ok(())
}

#[test]
fn errors_have_the_numbers_of_linux(rt: HostRuntime) -> Result<(), AllocError> {
    assert_eq!(rt; Errno::EPERM.code(), 1);
    assert_eq!(rt; Errno::ENOSYS.code(), 38);
    assert_eq!(rt; Errno::ETIMEDOUT.code(), 110);
    Ok(())
}

/// An answer as a number: the inode, or the negated errno. Want of memory is none of them.
fn number(made: Result<Inode, TreeFault>) -> i64 {
    match made {
        Ok(inode) if inode < 1 << 32 => inode as i64,
        Ok(_) => i64::MAX,
        Err(TreeFault::Errno(errno)) => -errno.code(),
        Err(TreeFault::Memory) => i64::MIN,
    }
}

/// The same of a call that answers nothing but that it was done, which is 0.
fn done(made: Result<(), TreeFault>) -> i64 {
    match made {
        Ok(()) => 0,
        Err(fault) => number(Err(fault)),
    }
}

fn walked(tree: &Tree, from: Inode, path: &[u8]) -> i64
    requires { Has tree.now from }
{
    match tree.walk(from, path) {
        Ok(inode) => number(Ok(inode)),
        Err(errno) => number(Err(TreeFault::Errno(errno))),
    }
}

/// What making an entry answers, in a copy of the tree.
fn made(alloc: Global, tree: &Tree, kind: Kind, from: Inode, path: &[u8]) -> Result<i64, AllocError>
    requires { Has tree.now from }
{
    let mut copy = tree.copy()?;
    match kind {
        Kind::File => Ok(number(copy.create_file(alloc, from, path))),
        Kind::Dir => Ok(number(copy.create_dir(alloc, from, path))),
    }
}

/// What taking an entry away answers, in a copy of the tree.
fn taken(tree: &Tree, from: Inode, path: &[u8], dir: bool) -> Result<i64, AllocError>
    requires { Has tree.now from }
{
    let mut copy = tree.copy()?;
    match copy.unlink(from, path, dir) {
        Ok(()) => Ok(0),
        Err(errno) => Ok(number(Err(TreeFault::Errno(errno)))),
    }
}

/// What a path is answered by a walk, by making a file and a directory, and by taking a file and a directory away.
fn answers(alloc: Global, tree: &Tree, from: Inode, path: &[u8]) -> Result<[i64; 5], AllocError>
    requires { Has tree.now from }
{
    Ok([
        walked(tree, from, path),
        made(alloc, tree, Kind::File, from, path)?,
        made(alloc, tree, Kind::Dir, from, path)?,
        taken(tree, from, path, false)?,
        taken(tree, from, path, true)?,
    ])
}

/// Whether each path of a table is answered as its row says.
fn all_answered(
    alloc: Global,
    tree: &Tree,
    from: Inode,
    table: &[(&[u8], [i64; 5])],
) -> Result<bool, AllocError>
    requires { Has tree.now from }
{
    for row in table {
        if answers(alloc, tree, from, row.0)? != row.1 {
            return Ok(false);
        }
    }
    Ok(true)
}

fn make_file(alloc: Global, tree: &mut Tree, path: &[u8]) -> i64 {
    let root = tree.root();
    number(tree.create_file(alloc, root, path))
}

fn make_dir(alloc: Global, tree: &mut Tree, path: &[u8]) -> i64 {
    let root = tree.root();
    number(tree.create_dir(alloc, root, path))
}

fn unlink(tree: &mut Tree, path: &[u8]) -> i64 {
    let root = tree.root();
    match tree.unlink(root, path, false) {
        Ok(()) => 0,
        Err(errno) => number(Err(TreeFault::Errno(errno))),
    }
}

/// The tree of the tables: `a` is 2, `a/b` 3, `a/f` 4, `g` 5.
fn small_tree(alloc: Global) -> Result<Tree, AllocError> {
    let mut tree = Tree::new(alloc)?;
    let _ = make_dir(alloc, &mut tree, b"a");
    let _ = make_dir(alloc, &mut tree, b"a/b");
    let _ = make_file(alloc, &mut tree, b"a/f");
    let _ = make_file(alloc, &mut tree, b"g");
    Ok(tree)
}

#[test]
fn each_path_is_answered_by_its_first_refusal(rt: HostRuntime) -> Result<(), AllocError> {
    let tree = small_tree(rt.alloc())?;
    let root = tree.root();
    assert!(rt;
        all_answered(
            rt.alloc(),
            &tree,
            root,
            &[
                (b"", [-2, -2, -2, -2, -2]),
                (b"/", [1, -17, -17, -21, -16]),
                (b".", [1, -17, -17, -21, -22]),
                (b"..", [1, -17, -17, -21, -39]),
                (b"a", [2, -17, -17, -21, -39]),
                (b"//a//", [2, -17, -17, -21, -39]),
                (b"a/.", [2, -17, -17, -21, -22]),
                (b"a/b/", [3, -17, -17, -21, 0]),
                (b"a/b/..", [2, -17, -17, -21, -39]),
                (b"a/b/../../g", [5, -17, -17, 0, -20]),
            ]
        )?
    );
    assert!(rt;
        all_answered(
            rt.alloc(),
            &tree,
            root,
            &[
                (b"a/f", [4, -17, -17, 0, -20]),
                (b"a/f/", [-20, -17, -17, -20, -20]),
                (b"a/f/.", [-20, -20, -20, -20, -20]),
                (b"a/f/../x", [-20, -20, -20, -20, -20]),
                (b"x", [-2, 6, 6, -2, -2]),
                (b"x/", [-2, -21, 6, -2, -2]),
                (b"x/y", [-2, -2, -2, -2, -2]),
                (b"\xFF/", [-2, -22, -22, -2, -2]),
                (b"rv-\xFF", [-2, -22, -22, -2, -2]),
                (b"a/../rv-/", [-2, -13, -13, -2, -2]),
                (b"rv", [-2, 6, 6, -2, -2]),
                (b"a/rv-x", [-2, 6, 6, -2, -2]),
            ]
        )?
    );
    Ok(())
}

/// Holds `a/b` and takes its name away.
fn unlinked_directory(tree: &mut Tree) -> Option<Inode>
    ensures { IfSome result (λ inode. Has tree.new inode) }
{
    let root = tree.root();
    match tree.walk(root, b"a/b") {
        Ok(inode) => {
            tree.hold(inode);
            let root = tree.root();
            match tree.unlink(root, b"a/b", true) {
                Ok(()) => Some(inode),
                Err(_) => None,
            }
        }
        Err(_) => None,
    }
}

#[test]
fn in_a_directory_that_was_unlinked_there_is_only_itself(
    rt: HostRuntime,
) -> Result<(), AllocError> {
    let mut tree = small_tree(rt.alloc())?;
    let Some(from) = unlinked_directory(&mut tree) else {
        assert!(rt; false);
        return Ok(());
    };
    assert!(rt;
        all_answered(
            rt.alloc(),
            &tree,
            from,
            &[
                (b".", [3, -17, -17, -21, -22]),
                (b"././", [3, -17, -17, -21, -22]),
                (b"..", [-2, -2, -2, -2, -2]),
                (b"../g", [-2, -2, -2, -2, -2]),
                (b"x", [-2, -2, -2, -2, -2]),
                (b"\xFF/", [-2, -2, -2, -2, -2]),
                (b"/g", [5, -17, -17, 0, -20]),
                (b"/a/b", [-2, 6, 6, -2, -2]),
            ]
        )?
    );
    Ok(())
}

/// A beginning, and one byte so often behind it.
fn lengthened(alloc: Global, begin: &[u8], byte: u8, count: usize) -> Result<Vec<u8>, AllocError> {
    let mut path = Vec::from_slice(alloc, begin)?;
    for _ in 0..count {
        path.push(byte)?;
    }
    Ok(path)
}

/// `./` so often, and an end behind it.
fn dotted(alloc: Global, count: usize, end: &[u8]) -> Result<Vec<u8>, AllocError> {
    let mut path = Vec::new(alloc);
    for _ in 0..count {
        path.extend_from_slice(b"./")?;
    }
    path.extend_from_slice(end)?;
    Ok(path)
}

#[test]
fn a_name_has_at_most_255_bytes(rt: HostRuntime) -> Result<(), AllocError> {
    let tree = small_tree(rt.alloc())?;
    let root = tree.root();
    let longest = lengthened(rt.alloc(), b"", b'x', 255)?;
    let longer = lengthened(rt.alloc(), b"", b'x', 256)?;
    let below_a_file = lengthened(rt.alloc(), b"g/", b'x', 256)?;
    let below_none = lengthened(rt.alloc(), b"n/", b'x', 256)?;
    assert!(rt;
        all_answered(
            rt.alloc(),
            &tree,
            root,
            &[
                (longest.as_slice(), [-2, 6, 6, -2, -2]),
                (longer.as_slice(), [-36, -36, -36, -36, -36]),
                (below_a_file.as_slice(), [-36, -36, -36, -36, -36]),
                (below_none.as_slice(), [-2, -2, -2, -2, -2]),
            ]
        )?
    );
    Ok(())
}

#[test]
fn a_path_has_at_most_4095_bytes(rt: HostRuntime) -> Result<(), AllocError> {
    let tree = small_tree(rt.alloc())?;
    let root = tree.root();
    let longest = dotted(rt.alloc(), 2047, b"g")?;
    let longer = dotted(rt.alloc(), 2047, b"/g")?;
    let slashes = lengthened(rt.alloc(), b"", b'/', 4096)?;
    assert!(rt;
        all_answered(
            rt.alloc(),
            &tree,
            root,
            &[
                (longest.as_slice(), [5, -17, -17, 0, -20]),
                (longer.as_slice(), [-36, -36, -36, -36, -36]),
                (slashes.as_slice(), [-36, -36, -36, -36, -36]),
            ]
        )?
    );
    Ok(())
}

/// Directories below each other, all of one name. It tells the last one's inode.
fn deep(alloc: Global, tree: &mut Tree, name: &[u8], count: usize) -> Option<Inode>
    ensures { IfSome result (λ inode. Has tree.new inode) }
{
    let mut at = tree.root();
    for _ in 0..count {
        match tree.create_dir(alloc, at, name) {
            Ok(inode) => at = inode,
            Err(_) => return None,
        }
    }
    Some(at)
}

/// What making a file in a new directory answers, in a copy of the tree.
fn made_below(alloc: Global, tree: &Tree, from: Inode, name: &[u8]) -> Result<i64, AllocError>
    requires { Has tree.now from }
{
    let mut copy = tree.copy()?;
    match copy.create_dir(alloc, from, name) {
        Ok(at) => Ok(number(copy.create_file(alloc, at, b"z"))),
        Err(fault) => Ok(number(Err(fault))),
    }
}

#[test]
fn the_path_of_a_new_entry_has_at_most_4095_bytes(rt: HostRuntime) -> Result<(), AllocError> {
    let mut tree = Tree::new(rt.alloc())?;
    let name = lengthened(rt.alloc(), b"", b'x', 255)?;
    let Some(from) = deep(rt.alloc(), &mut tree, &name, 15) else {
        assert!(rt; false);
        return Ok(());
    };
    let short = lengthened(rt.alloc(), b"", b'y', 253)?;
    let long = lengthened(rt.alloc(), b"", b'y', 254)?;
    assert_eq!(rt; made_below(rt.alloc(), &tree, from, &short)?, 18);
    assert_eq!(rt; made_below(rt.alloc(), &tree, from, &long)?, -36);
    assert_eq!(rt; made(rt.alloc(), &tree, Kind::File, from, &name)?, 17);
    Ok(())
}

/// Makes so many files in the root, which are named by numbers.
fn crowded(alloc: Global, tree: &mut Tree, count: usize) -> Result<bool, AllocError> {
    for index in 0..count {
        let name = format!(in alloc; "{index}")?;
        if make_file(alloc, tree, name.as_bytes()) < 0 {
            return Ok(false);
        }
    }
    Ok(true)
}

#[test]
fn a_tree_has_at_most_4096_entries(rt: HostRuntime) -> Result<(), AllocError> {
    let mut tree = Tree::new(rt.alloc())?;
    assert!(rt; crowded(rt.alloc(), &mut tree, 4096)?);
    assert_eq!(rt; make_file(rt.alloc(), &mut tree, b"x"), -28);
    assert_eq!(rt; make_file(rt.alloc(), &mut tree, b"x/"), -21);
    assert_eq!(rt; unlink(&mut tree, b"0"), 0);
    assert_eq!(rt; make_dir(rt.alloc(), &mut tree, b"x"), 4098);
    Ok(())
}

/// The file that a path leads to.
fn file_at(tree: &Tree, path: &[u8]) -> Option<Inode>
    ensures { IfSome result (λ inode. kind_in tree.now inode ≡ Some File) }
{
    match tree.walk(tree.root(), path) {
        Ok(inode) => {
            if tree.kind(inode) == Kind::File {
                return Some(inode);
            }
            None
        }
        Err(_) => None,
    }
}

fn write(tree: &mut Tree, path: &[u8], offset: u64, bytes: &[u8]) -> i64 {
    match file_at(tree, path) {
        Some(file) => done(tree.write_at(file, offset, bytes)),
        None => i64::MAX,
    }
}

fn truncate(tree: &mut Tree, path: &[u8], size: u64) -> i64 {
    match file_at(tree, path) {
        Some(file) => done(tree.truncate(file, size)),
        None => i64::MAX,
    }
}

/// Whether the first ten bytes of a file are these, behind `count` of its own dashes.
fn reads(tree: &Tree, path: &[u8], wanted: &[u8; 10], count: usize) -> bool {
    let mut into = [b'-'; 10];
    match file_at(tree, path) {
        Some(file) => tree.read_at(file, 0, &mut into) == count && into == *wanted,
        None => false,
    }
}

fn size(tree: &Tree, path: &[u8]) -> u64 {
    match file_at(tree, path) {
        Some(file) => tree.size(file),
        None => u64::MAX,
    }
}

#[test]
fn a_gap_is_zeros_also_after_a_cut(rt: HostRuntime) -> Result<(), AllocError> {
    let mut tree = small_tree(rt.alloc())?;
    assert_eq!(rt; write(&mut tree, b"g", 0, b"hello"), 0);
    assert_eq!(rt; truncate(&mut tree, b"g", 2), 0);
    assert_eq!(rt; write(&mut tree, b"g", 4, b"xy"), 0);
    assert!(rt; reads(&tree, b"g", b"he\0\0xy----", 6));
    assert_eq!(rt; truncate(&mut tree, b"g", 8), 0);
    assert!(rt; reads(&tree, b"g", b"he\0\0xy\0\0--", 8));
    Ok(())
}

/// Whether the writes of a table, one after the other, answer what it says: an offset, the bytes, and the answer.
fn all_written(tree: &mut Tree, path: &[u8], table: &[(u64, &[u8], i64)]) -> bool {
    for row in table {
        if write(tree, path, row.0, row.1) != row.2 {
            return false;
        }
    }
    true
}

#[test]
fn a_file_has_at_most_16_mebibytes(rt: HostRuntime) -> Result<(), AllocError> {
    let mut tree = small_tree(rt.alloc())?;
    assert!(rt;
        all_written(
            &mut tree,
            b"g",
            &[
                (16_777_215, b"x", 0),
                (16_777_215, b"xy", -27),
                (16_777_216, b"x", -27),
                (u64::MAX, b"x", -27),
                (u64::MAX, b"", 0),
            ]
        )
    );
    assert_eq!(rt; truncate(&mut tree, b"g", 16_777_217), -27);
    assert_eq!(rt; size(&tree, b"g"), 16_777_216);
    Ok(())
}

/// Makes so many files of 16 mebibytes in the root, which are named by numbers.
fn filled(alloc: Global, tree: &mut Tree, count: usize) -> Result<bool, AllocError> {
    for index in 0..count {
        let name = format!(in alloc; "{index}")?;
        let _ = make_file(alloc, tree, name.as_bytes());
        if truncate(tree, name.as_bytes(), 16_777_216) != 0 {
            return Ok(false);
        }
    }
    Ok(true)
}

#[test]
fn all_files_have_at_most_256_mebibytes(rt: HostRuntime) -> Result<(), AllocError> {
    let mut tree = small_tree(rt.alloc())?;
    assert!(rt; filled(rt.alloc(), &mut tree, 16)?);
    assert!(rt; all_written(&mut tree, b"g", &[(0, b"x", -28), (16_777_216, b"x", -27)]));
    assert_eq!(rt; truncate(&mut tree, b"0", 16_777_215), 0);
    assert!(rt; all_written(&mut tree, b"g", &[(0, b"x", 0), (1, b"y", -28)]));
    Ok(())
}

/// Reads a file's bytes after its name was taken away, and lets it go.
fn read_without_a_name(tree: &mut Tree, path: &[u8], into: &mut [u8]) -> usize {
    match file_at(tree, path) {
        Some(file) => {
            tree.hold(file);
            let root = tree.root();
            match tree.unlink(root, path, false) {
                Ok(()) => {
                    let count = tree.read_at(file, 0, into);
                    tree.release(file);
                    count
                }
                Err(_) => 0,
            }
        }
        None => 0,
    }
}

#[test]
fn a_held_file_outlives_its_name(rt: HostRuntime) -> Result<(), AllocError> {
    let mut tree = small_tree(rt.alloc())?;
    assert_eq!(rt; write(&mut tree, b"a/f", 0, b"hello"), 0);
    let mut into = [b'-'; 8];
    assert_eq!(rt; read_without_a_name(&mut tree, b"a/f", &mut into), 5);
    assert!(rt; into == *b"hello---");
    Ok(())
}

/// How many names a directory has.
fn count_names(alloc: Global, tree: &Tree, path: &[u8]) -> Result<usize, AllocError> {
    match tree.walk(tree.root(), path) {
        Ok(inode) => {
            if tree.kind(inode) == Kind::Dir {
                return Ok(tree.names(alloc, inode)?.len());
            }
            Ok(0)
        }
        Err(_) => Ok(0),
    }
}

#[test]
fn a_copy_goes_its_own_way(rt: HostRuntime) -> Result<(), AllocError> {
    let mut tree = small_tree(rt.alloc())?;
    let copy = tree.copy()?;
    assert_eq!(rt; write(&mut tree, b"a/f", 0, b"hello"), 0);
    assert_eq!(rt; unlink(&mut tree, b"g"), 0);
    assert_eq!(rt; size(&copy, b"a/f"), 0);
    assert_eq!(rt; count_names(rt.alloc(), &copy, b"/")?, 2);
    Ok(())
}
