use super::*;
use file_tree::{Text, Tree};
use le_fields::Bytes;
use std::alloc::{AllocError, Global};
use std::test::Fail;

/// An entry of a table: its path, its kind and its bytes.
type Row<'a> = (&'a str, Kind, &'a str);

fn entries_of(alloc: Global, rows: &[Row<'_>]) -> Result<Vec<Entry>, AllocError> {
    let mut entries = Vec::new(alloc);
    for (path, kind, bytes) in rows {
        entries.push(Entry {
            path: Text::new(alloc, path)?,
            kind: *kind,
            bytes: Bytes::from_vec(bytes.as_bytes().to_vec(alloc)?),
        })?;
    }
    Ok(entries)
}

/// Whether the entries are taken.
fn is_taken(alloc: Global, entries: Vec<Entry>) -> bool {
    match Entries::new(alloc, entries) {
        Ok(_) => true,
        Err(_) => false,
    }
}

/// Directories in one another, `depth` of them, whose names are all the same.
fn nested(alloc: Global, name: &str, depth: u32) -> Result<Vec<Entry>, AllocError> {
    let mut entries = Vec::new(alloc);
    let mut path = String::from_str(alloc, name)?;
    for _ in 0..depth {
        entries.push(Entry {
            path: Text::new(alloc, path.as_str())?,
            kind: Kind::Dir,
            bytes: Bytes::new(alloc),
        })?;
        path.push('/')?;
        path.push_str(name)?;
    }
    Ok(entries)
}

fn name_of(alloc: Global, length: u32) -> Result<String, AllocError> {
    let mut name = String::new(alloc);
    for _ in 0..length {
        name.push('n')?;
    }
    Ok(name)
}

#[test]
fn entries_that_are_a_listing_and_such_that_are_none(rt: HostRuntime) -> Result<(), Fail> {
    let table: [(&[Row<'_>], bool); 19] = [
        (&[], true),
        (&[("d", Kind::Dir, ""), ("d/f", Kind::File, "x")], true),
        // `!` is below the slash
        (
            &[
                ("d", Kind::Dir, ""),
                ("d!", Kind::Other, ""),
                ("d/f", Kind::File, ""),
            ],
            true,
        ),
        (&[("...", Kind::File, ""), (".d", Kind::Dir, "")], true),
        (&[("b", Kind::File, ""), ("a", Kind::File, "")], false),
        (&[("a", Kind::File, ""), ("a", Kind::Dir, "")], false),
        (&[("d/f", Kind::File, "")], false),
        (&[("d", Kind::File, ""), ("d/f", Kind::File, "")], false),
        (&[("d", Kind::Other, ""), ("d/f", Kind::File, "")], false),
        (&[("d", Kind::Dir, ""), ("d/e/f", Kind::File, "")], false),
        (&[("", Kind::Dir, "")], false),
        (&[("/a", Kind::File, "")], false),
        (&[("a", Kind::Dir, ""), ("a/", Kind::Dir, "")], false),
        (&[("a", Kind::Dir, ""), ("a//b", Kind::File, "")], false),
        (&[(".", Kind::Dir, "")], false),
        (&[("..", Kind::Dir, "")], false),
        (&[("a", Kind::Dir, ""), ("a/.", Kind::Dir, "")], false),
        (&[("a", Kind::Dir, ""), ("a/..", Kind::Dir, "")], false),
        (&[("a\0b", Kind::File, "")], false),
    ];
    let alloc = rt.alloc();
    for (rows, taken) in &table {
        let entries = entries_of(alloc, rows)?;
        assert_eq!(rt; is_taken(alloc, entries), *taken);
    }
    Ok(())
}

#[test]
fn the_longest_names_and_paths(rt: HostRuntime) -> Result<(), Fail> {
    let alloc = rt.alloc();
    // 16 names of 255 bytes with a slash between each two are 4,095 bytes
    for (length, depth, taken) in [
        (255, 16, true),
        (255, 17, false),
        (256, 1, false),
        (1, 2048, true),
        (1, 2049, false),
    ] {
        let name = name_of(alloc, length)?;
        let entries = nested(alloc, name.as_str(), depth)?;
        assert_eq!(rt; is_taken(alloc, entries), taken);
    }
    Ok(())
}

/// No call fails.
fn none_failing(alloc: Global) -> FailingCalls {
    FailingCalls {
        lists: Vec::new(alloc),
        reads: Vec::new(alloc),
        writes: Vec::new(alloc),
        makes: Vec::new(alloc),
        removes: Vec::new(alloc),
    }
}

/// A folder of these entries.
fn folder_of(
    alloc: Global,
    rows: &[Row<'_>],
    failing: FailingCalls,
) -> Result<MemFolder, AllocError> {
    match Entries::new(alloc, entries_of(alloc, rows)?) {
        Ok(entries) => Ok(MemFolder::new(entries, failing)),
        Err(_) => Err(AllocError),
    }
}

/// A folder of the file `f` in the directory `d`, which fails at its second listing and its second read.
fn folder(alloc: Global) -> Result<MemFolder, AllocError> {
    let mut failing = none_failing(alloc);
    failing.lists.push(1)?;
    failing.reads.push(1)?;
    folder_of(
        alloc,
        &[("d", Kind::Dir, ""), ("d/f", Kind::File, "xyz")],
        failing,
    )
}

#[test]
fn a_folder_in_memory_fails_at_the_calls_that_it_is_given(rt: HostRuntime) -> Result<(), Fail> {
    let alloc = rt.alloc();
    let mut folder = folder(alloc)?;
    for (count, listed) in [(1, true), (2, false), (3, true)] {
        let answer = match folder.list(alloc) {
            Ok(listing) => listing.len() == 2 && listing[1].size == 3,
            Err(error) => error != FolderError::Failed,
        };
        assert_eq!(rt; (count, answer), (count, listed));
    }
    let mut bytes = Vec::new(alloc);
    assert_eq!(rt; folder.read("d/f", &mut bytes), Ok(()));
    assert_eq!(rt; folder.read("d/f", &mut bytes), Err(FolderError::Failed));
    assert_eq!(rt; folder.read("d/f", &mut bytes), Ok(()));
    assert_eq!(rt; bytes.as_slice(), b"xyzxyz".as_slice());
    for path in ["d", "f", "d/g", ""] {
        assert_eq!(rt; folder.read(path, &mut bytes), Err(FolderError::Failed));
    }
    Ok(())
}

/// A folder of files and links that tells nothing: each file gives the same bytes, whatever is listed.
#[derive(Drop)]
struct Fake {
    rows: Vec<(Text, Kind, u64)>,
    gives: Vec<u8>,
    failed_reads: u64,
}

impl Folder for Fake {
    ghost use Rattle.std.specs.Prelude.{None};

    ghost tree = { λ folder. None };

    ghost failed_reads = { λ folder. folder.failed_reads };

    ghost failed_writes = { λ folder. 0 };

    fn list(&mut self, alloc: Global) -> Result<Vec<Listed>, FolderError> {
        match listing_of(alloc, &self.rows) {
            Ok(listing) if is_listing(&listing) => Ok(listing),
            Ok(_) => {
                self.failed_reads = self.failed_reads.saturating_add(1);
                Err(FolderError::Failed)
            }
            Err(_) => Err(FolderError::Memory),
        }
    }

    fn read(&mut self, _path: &str, into: &mut Vec<u8>) -> Result<(), FolderError> {
        match into.extend_from_slice(&self.gives) {
            Ok(()) => Ok(()),
            Err(_) => Err(FolderError::Memory),
        }
    }

    fn write(&mut self, _alloc: Global, _path: &str, _bytes: &[u8]) -> Result<(), FolderError> {
        Err(FolderError::Memory)
    }

    fn make_dir(&mut self, _alloc: Global, _path: &str) -> Result<(), FolderError> {
        Err(FolderError::Memory)
    }

    fn remove(&mut self, _path: &str) -> Result<(), FolderError> {
        Err(FolderError::Memory)
    }
}

fn listing_of(alloc: Global, rows: &[(Text, Kind, u64)]) -> Result<Vec<Listed>, AllocError> {
    let mut listing = Vec::new(alloc);
    for (path, kind, size) in rows {
        listing.push(Listed {
            path: Text::new(alloc, path.as_str())?,
            kind: *kind,
            size: *size,
        })?;
    }
    Ok(listing)
}

/// How a load ended, as a text.
fn load<F: Folder>(alloc: Global, folder: &mut F) -> Result<String, AllocError> {
    match load_tree(alloc, folder) {
        Ok(loaded) => format!(in alloc; "loaded {}", loaded.listed.len()),
        Err(LoadFault::TooMany(count)) => format!(in alloc; "{count} entries"),
        Err(LoadFault::Link(path)) => format!(in alloc; "link {}", path.as_str()),
        Err(LoadFault::TooBig(path, count)) => format!(in alloc; "{} of {count}", path.as_str()),
        Err(LoadFault::ReadFault) => String::from_str(alloc, "read fault"),
        Err(LoadFault::Memory) => String::from_str(alloc, "memory"),
    }
}

/// How the load of files ends that are listed so, and give so many bytes.
fn load_listed(
    alloc: Global,
    rows: &[(&str, Kind, u64)],
    gives: usize,
) -> Result<String, AllocError> {
    let mut list = Vec::new(alloc);
    for (path, kind, size) in rows {
        list.push((Text::new(alloc, path)?, *kind, *size))?;
    }
    let mut bytes = Vec::new(alloc);
    bytes.resize(gives, 0)?;
    let mut folder = Fake {
        rows: list,
        gives: bytes,
        failed_reads: 0,
    };
    load(alloc, &mut folder)
}

#[test]
fn the_first_cause_is_answered(rt: HostRuntime) -> Result<(), Fail> {
    const MOST: u64 = 16_777_216;
    let table: [(&[(&str, Kind, u64)], usize, &str); 9] = [
        (
            &[("a", Kind::File, MOST + 1), ("b", Kind::Other, 0)],
            0,
            "a of 16777217",
        ),
        (
            &[("a", Kind::Other, 0), ("b", Kind::File, MOST + 1)],
            0,
            "link a",
        ),
        (&[("a", Kind::File, MOST)], 0, "loaded 1"),
        // what isn't loaded isn't looked at
        (
            &[("rv-a", Kind::Other, 0), ("rv-b", Kind::File, MOST + 1)],
            0,
            "loaded 2",
        ),
        (
            &[("d", Kind::Dir, MOST + 1), ("d/rv-a", Kind::Other, 0)],
            0,
            "link d/rv-a",
        ),
        // a file that gives more counts with what it gave
        (&[("a", Kind::File, 3)], 4, "loaded 1"),
        (
            &[("a", Kind::File, 3), ("b", Kind::File, 3)],
            16_777_217,
            "a of 16777217",
        ),
        (
            &[
                ("d", Kind::Dir, 0),
                ("d/f", Kind::File, 0),
                ("d/g", Kind::File, 0),
            ],
            2,
            "loaded 3",
        ),
        (
            &[("b", Kind::File, 0), ("a", Kind::File, 0)],
            0,
            "read fault",
        ),
    ];
    let alloc = rt.alloc();
    for (rows, gives, ended) in &table {
        let answer = load_listed(alloc, rows, *gives)?;
        assert_eq!(rt; answer.as_str(), *ended);
    }
    Ok(())
}

/// Files of these sizes in turn.
fn sized(alloc: Global, count: u32, size: u64, last: u64) -> Result<String, AllocError> {
    let mut rows = Vec::new(alloc);
    for number in 0..count {
        let name = format!(in alloc; "f{number:05}")?;
        rows.push((Text::from_string(name), Kind::File, size))?;
    }
    rows.push((Text::new(alloc, "g")?, Kind::File, last))?;
    let mut folder = Fake {
        rows,
        gives: Vec::new(alloc),
        failed_reads: 0,
    };
    load(alloc, &mut folder)
}

#[test]
fn the_limits_of_entries_and_of_bytes(rt: HostRuntime) -> Result<(), Fail> {
    let table = [
        (4095, 0, 0, "loaded 4096"),
        (4096, 0, 0, "4097 entries"),
        (15, 16_777_216, 16_777_216, "loaded 16"),
        (16, 16_777_216, 0, "loaded 17"),
        (16, 16_777_216, 1, "g of 1"),
    ];
    let alloc = rt.alloc();
    for (count, size, last, ended) in table {
        let answer = sized(alloc, count, size, last)?;
        assert_eq!(rt; answer.as_str(), ended);
    }
    Ok(())
}

/// What stands at a path of a tree: the inode, or the errno's number below zero, and the first bytes.
fn stands(loaded: &Loaded, path: &str) -> (i64, [u8; 4]) {
    let mut bytes = [0; 4];
    match loaded.tree.walk(loaded.tree.root(), path.as_bytes()) {
        Ok(inode) => {
            if loaded.tree.kind(inode) == file_tree::Kind::File {
                loaded.tree.read_at(inode, 0, &mut bytes);
            }
            (if inode < 1 << 32 { inode as i64 } else { 0 }, bytes)
        }
        Err(errno) => (-errno.code(), bytes),
    }
}

#[test]
fn the_tree_has_the_entries_in_their_order(rt: HostRuntime) -> Result<(), Fail> {
    let alloc = rt.alloc();
    let rows = [
        ("d", Kind::Dir, ""),
        ("d!", Kind::File, "a"),
        ("d/f", Kind::File, "xyz"),
        ("g", Kind::File, ""),
        ("rv-d", Kind::Dir, ""),
        ("rv-d/f", Kind::File, "q"),
    ];
    let mut folder = folder_of(alloc, &rows, none_failing(alloc))?;
    let loaded = match load_tree(alloc, &mut folder) {
        Ok(loaded) => loaded,
        Err(_) => return Err(Fail::from(AllocError)),
    };
    assert_eq!(rt; loaded.listed.len(), 6);
    for (path, inode, bytes) in [
        ("d", 2, [0, 0, 0, 0]),
        ("d!", 3, [b'a', 0, 0, 0]),
        ("d/f", 4, [b'x', b'y', b'z', 0]),
        ("g", 5, [0, 0, 0, 0]),
        ("rv-d", -2, [0, 0, 0, 0]),
    ] {
        assert_eq!(rt; stands(&loaded, path), (inode, bytes));
    }
    Ok(())
}

#[test]
fn a_folder_that_fails_is_a_read_fault(rt: HostRuntime) -> Result<(), Fail> {
    let alloc = rt.alloc();
    let mut folder = folder(alloc)?;
    // its second listing and its second read fail
    for ended in ["loaded 2", "read fault", "read fault", "loaded 2"] {
        let answer = load(alloc, &mut folder)?;
        assert_eq!(rt; answer.as_str(), ended);
    }
    Ok(())
}

/// What a folder holds, as a text: its paths in their order, a directory's with a slash and a file's with its bytes.
fn text_of(alloc: Global, folder: &mut MemFolder) -> Result<String, AllocError> {
    let mut text = String::new(alloc);
    let listing = match folder.list(alloc) {
        Ok(listing) => listing,
        Err(_) => return Ok(text),
    };
    for entry in &listing {
        text.push(' ')?;
        text.push_str(entry.path.as_str())?;
        text.push(if entry.kind == Kind::Dir { '/' } else { ':' })?;
        let mut bytes = Vec::new(alloc);
        if entry.kind == Kind::File && folder.read(entry.path.as_str(), &mut bytes).is_ok() {
            for byte in &bytes {
                text.push(char::from(*byte))?;
            }
        }
    }
    Ok(text)
}

/// A call that changes a folder.
#[derive(Clone, Copy)]
enum Call {
    Write,
    MakeDir,
    Remove,
}

fn answer_of(
    alloc: Global,
    folder: &mut MemFolder,
    call: Call,
    path: &str,
) -> Result<(), FolderError> {
    match call {
        Call::Write => folder.write(alloc, path, b"news"),
        Call::MakeDir => folder.make_dir(alloc, path),
        Call::Remove => folder.remove(path),
    }
}

/// What a call answers and leaves of the files `d/f` and `g`, as a text. If it is to fail, its first call does.
fn called(alloc: Global, call: Call, path: &str, fails: bool) -> Result<String, AllocError> {
    let mut failing = none_failing(alloc);
    if fails {
        failing.writes.push(0)?;
        failing.makes.push(0)?;
        failing.removes.push(0)?;
    }
    let rows = [
        ("d", Kind::Dir, ""),
        ("d/f", Kind::File, "xyz"),
        ("g", Kind::File, "q"),
    ];
    let mut folder = folder_of(alloc, &rows, failing)?;
    called_on(alloc, &mut folder, call, path)
}

fn called_on(
    alloc: Global,
    folder: &mut MemFolder,
    call: Call,
    path: &str,
) -> Result<String, AllocError> {
    let answer = match answer_of(alloc, folder, call, path) {
        Ok(()) => "done",
        Err(FolderError::Failed) => "failed",
        Err(FolderError::Memory) => "memory",
    };
    left(alloc, answer, folder)
}

/// An answer, and what a folder holds after it.
fn left(alloc: Global, answer: &str, folder: &mut MemFolder) -> Result<String, AllocError> {
    let mut text = String::from_str(alloc, answer)?;
    text.push_str(text_of(alloc, folder)?.as_str())?;
    Ok(text)
}

#[test]
fn changes_of_a_folder_and_what_a_failed_one_leaves(rt: HostRuntime) -> Result<(), Fail> {
    let table = [
        (Call::Write, "g", false, "done d/ d/f:xyz g:news"),
        (Call::Write, "d/h", false, "done d/ d/f:xyz d/h:news g:q"),
        (Call::Write, "a", false, "done a:news d/ d/f:xyz g:q"),
        (Call::Write, "d", false, "failed d/ d/f:xyz g:q"),
        (Call::Write, "e/h", false, "failed d/ d/f:xyz g:q"),
        (Call::Write, "g/h", false, "failed d/ d/f:xyz g:q"),
        (Call::Write, "d//h", false, "failed d/ d/f:xyz g:q"),
        (Call::Write, "g", true, "failed d/ d/f:xyz g:ne"),
        (Call::Write, "h", true, "failed d/ d/f:xyz g:q h:ne"),
        (Call::MakeDir, "e", false, "done d/ d/f:xyz e/ g:q"),
        (Call::MakeDir, "d/e", false, "done d/ d/e/ d/f:xyz g:q"),
        (Call::MakeDir, "d", false, "failed d/ d/f:xyz g:q"),
        (Call::MakeDir, "g", false, "failed d/ d/f:xyz g:q"),
        (Call::MakeDir, "e/f", false, "failed d/ d/f:xyz g:q"),
        (Call::MakeDir, "e", true, "failed d/ d/f:xyz g:q"),
        (Call::Remove, "g", false, "done d/ d/f:xyz"),
        (Call::Remove, "d/f", false, "done d/ g:q"),
        (Call::Remove, "d", false, "failed d/ d/f:xyz g:q"),
        (Call::Remove, "h", false, "failed d/ d/f:xyz g:q"),
        (Call::Remove, "g", true, "failed d/ d/f:xyz g:q"),
    ];
    let alloc = rt.alloc();
    for (call, path, fails, left) in table {
        let text = called(alloc, call, path, fails)?;
        assert_eq!(rt; text.as_str(), left);
    }
    Ok(())
}

/// Takes an entry from a tree.
fn unlink(tree: &mut Tree, path: &str, dir: bool) -> Result<(), AllocError> {
    let root = tree.root();
    match tree.unlink(root, path.as_bytes(), dir) {
        Ok(()) => Ok(()),
        Err(_) => Err(AllocError),
    }
}

fn make_dir(alloc: Global, tree: &mut Tree, path: &str) -> Result<(), AllocError> {
    let root = tree.root();
    match tree.create_dir(alloc, root, path.as_bytes()) {
        Ok(_) => Ok(()),
        Err(_) => Err(AllocError),
    }
}

/// Makes a file with these bytes, or writes them over the beginning of the one that is there.
fn put(alloc: Global, tree: &mut Tree, path: &str, bytes: &str) -> Result<(), AllocError> {
    let root = tree.root();
    if tree.walk(root, path.as_bytes()).is_err() {
        let _ = tree.create_file(alloc, root, path.as_bytes());
    }
    let root = tree.root();
    match tree.walk(root, path.as_bytes()) {
        Ok(inode) => {
            if tree.kind(inode) == file_tree::Kind::File
                && tree.write_at(inode, 0, bytes.as_bytes()).is_ok()
            {
                return Ok(());
            }
            Err(AllocError)
        }
        Err(_) => Err(AllocError),
    }
}

/// Changes a tree: a file in place of the directory `d` and one in `k`, a directory in place of the file `k`, and another
/// with a file; `g` gets other bytes, `h` the same again, and `p` goes.
fn change(alloc: Global, tree: &mut Tree) -> Result<(), AllocError> {
    unlink(tree, "d/f", false)?;
    unlink(tree, "d", true)?;
    put(alloc, tree, "d", "file")?;
    put(alloc, tree, "g", "news")?;
    put(alloc, tree, "h", "same")?;
    unlink(tree, "k", false)?;
    make_dir(alloc, tree, "k")?;
    put(alloc, tree, "k/x", "1")?;
    make_dir(alloc, tree, "m")?;
    unlink(tree, "p", false)
}

/// How writing the changed tree back ends, and what it leaves, as a text.
fn written_back(alloc: Global, failing: FailingCalls) -> Result<String, AllocError> {
    let rows = [
        ("d", Kind::Dir, ""),
        ("d/f", Kind::File, "xyz"),
        ("g", Kind::File, "q"),
        ("h", Kind::File, "same"),
        ("k", Kind::File, "gone"),
        ("p", Kind::File, ""),
        ("rv-p", Kind::File, "own"),
    ];
    let mut folder = folder_of(alloc, &rows, failing)?;
    let answer = match load_tree(alloc, &mut folder) {
        Ok(loaded) => stored(alloc, &mut folder, &loaded)?,
        Err(_) => return Err(AllocError),
    };
    left(alloc, answer, &mut folder)
}

/// How writing the changed tree back ends.
fn stored(
    alloc: Global,
    folder: &mut MemFolder,
    before: &Loaded,
) -> Result<&'static str, AllocError> {
    let mut after = before.tree.copy()?;
    change(alloc, &mut after)?;
    Ok(match write_back(alloc, folder, before, &after) {
        Ok(()) => "done",
        Err(StoreFault::WriteFault) => "fault",
        Err(StoreFault::Memory) => "memory",
    })
}

/// The failing calls of one kind: the call of this number.
fn failing_at(alloc: Global, call: Call, number: u64) -> Result<FailingCalls, AllocError> {
    let mut failing = none_failing(alloc);
    match call {
        Call::Write => failing.writes.push(number)?,
        Call::MakeDir => failing.makes.push(number)?,
        Call::Remove => failing.removes.push(number)?,
    }
    Ok(failing)
}

#[test]
fn a_tree_is_written_back_and_a_fault_leaves_what_was_done(rt: HostRuntime) -> Result<(), Fail> {
    const WHOLE: &str = "done d:file g:news h:same k/ k/x:1 m/ rv-p:own";
    let table = [
        // `p`, `k`, `d/f` and `d` go in this order
        (
            Call::Remove,
            0,
            "fault d/ d/f:xyz g:q h:same k:gone p: rv-p:own",
        ),
        (Call::Remove, 2, "fault d/ d/f:xyz g:q h:same rv-p:own"),
        (Call::Remove, 3, "fault d/ g:q h:same rv-p:own"),
        (Call::Remove, 4, WHOLE),
        // `d`, `g` and `k/x` are written in this order, between them `k` is made, and behind them `m`
        (Call::Write, 0, "fault d:fi g:q h:same rv-p:own"),
        (Call::Write, 1, "fault d:file g:ne h:same rv-p:own"),
        (
            Call::Write,
            2,
            "fault d:file g:news h:same k/ k/x: rv-p:own",
        ),
        (Call::Write, 3, WHOLE),
        (Call::MakeDir, 0, "fault d:file g:news h:same rv-p:own"),
        (
            Call::MakeDir,
            1,
            "fault d:file g:news h:same k/ k/x:1 rv-p:own",
        ),
        (Call::MakeDir, 2, WHOLE),
    ];
    let alloc = rt.alloc();
    for (call, number, left) in table {
        let text = written_back(alloc, failing_at(alloc, call, number)?)?;
        assert_eq!(rt; text.as_str(), left);
    }
    Ok(())
}
