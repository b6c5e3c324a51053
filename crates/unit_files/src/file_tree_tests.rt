//! Tests of file_tree.

ghost use Rattle.std.specs.Prelude.{◌≡◌, true};
ghost use Rattle.file_tree.specs.Lookup.{AreAscending, AreAscendingFrom};

use file_tree::{PathFault, file_at, may_open, resolve};
use std::alloc::Global;
use std::process::Abort;
use std::test::Fail;
use wedge_base::{Bytes, FdBits, FileEntry, NoMemory, PathText, StreamKind, is_canonical};

/// The canonical path of this text.
fn path(rt: &(impl Abort + AllocGlobal), text: &[u8]) -> Result<PathText, NoMemory> {
    assert!(rt; is_canonical(text), "not canonical");
    Ok(PathText::new(Bytes::from_slice(rt.alloc(), text)?))
}

/// The path that a text names under a root directory, if it names one.
fn resolved(
    rt: &(impl Abort + AllocGlobal),
    root: &[u8],
    text: &[u8],
) -> Result<Option<PathText>, NoMemory> {
    let root = path(rt, root)?;
    match resolve(rt.alloc(), &root, text) {
        Ok(found) => Ok(Some(found)),
        Err(PathFault::Bad) => Ok(None),
        Err(PathFault::NoMemory) => Err(NoMemory),
    }
}

/// A text that names this path under a root directory.
fn names(rt: &(impl Abort + AllocGlobal), row: &(&str, &str, &str)) -> Result<(), NoMemory> {
    let (root, text, answer) = row;
    let Some(found) = resolved(rt, root.as_bytes(), text.as_bytes())? else {
        panic!(rt; "no path at {text}")
    };
    assert_eq!(rt; found.as_slice(), answer.as_bytes(), "at {text}");
    Ok(())
}

/// Root directories, texts, and the paths that they name.
#[rattlefmt::skip]
static NAMED: [(&str, &str, &str); 14] = [
    ("/box", "/../../etc/key", "/box/etc/key"),
    ("/", "/", "/"),
    ("/a/b", "/", "/a/b"),
    ("/", "//a/./b", "/a/b"),
    ("/a/b", "//a/./b", "/a/b/a/b"),
    ("/", "/a/..", "/"),
    ("/a/b", "/a/..", "/a/b"),
    ("/", "/..", "/"),
    ("/a/b", "/..", "/a/b"),
    ("/", "/a/b/../c/", "/a/c"),
    ("/", "/a/b/../../../c", "/c"),
    ("/", "/...", "/..."),
    ("/", "/.a/a.", "/.a/a."),
    ("/", "/!~", "/!~"),
];

/// Paths that climb stay under their root.
#[test]
fn paths_resolve_under_their_roots(rt: HostRuntime) -> Result<(), Fail> {
    for row in &NAMED {
        names(&rt, row)?;
    }
    Ok(())
}

static BAD: [&str; 7] = ["", "a", "a/b", "/a b", "/a\tb", "/a\u{7f}", "/\u{e9}"];

/// Whether a text names no path under a root directory.
fn is_bad(rt: &(impl Abort + AllocGlobal), text: &[u8]) -> Result<bool, NoMemory> {
    let found = resolved(rt, b"/a/b", text)?;
    Ok(found.is_none())
}

/// What is no path is refused: no slash in front, a byte that is not printed, too many bytes, none.
#[test]
fn texts_that_are_no_paths_are_bad(rt: HostRuntime) -> Result<(), Fail> {
    for text in &BAD {
        assert!(rt; is_bad(&rt, text.as_bytes())?, "at {text}");
    }
    Ok(())
}

/// The length of the path that a text names under a root directory, if it names one.
fn length_of(rt: &(impl Abort + AllocGlobal), text: &[u8]) -> Result<Option<usize>, NoMemory> {
    let found = resolved(rt, b"/a/b", text)?;
    Ok(found.as_ref().map(|path| path.as_slice().len()))
}

/// A path has at most 256 bytes.
#[test]
fn long_texts_are_bad(rt: HostRuntime) -> Result<(), Fail> {
    let mut long = [b'a'; 257];
    long[0] = b'/';
    assert_eq!(rt; length_of(&rt, &long[..256])?, Some(260));
    assert!(rt; is_bad(&rt, &long)?);
    Ok(())
}

/// A user, a mode, the bits that are asked for, and whether a file of the user 7 may be opened so.
#[rattlefmt::skip]
static MODES: [(u32, u32, bool, bool, bool); 15] = [
    (0, 0b0000, true, true, true),
    (7, 0b0000, true, false, false),
    (7, 0b0001, true, false, true),
    (7, 0b0001, false, true, false),
    (7, 0b0010, false, true, true),
    (7, 0b0010, true, true, false),
    (7, 0b0011, true, true, true),
    (7, 0b1100, true, false, false),
    (7, 0b0000, false, false, true),
    (8, 0b0011, true, false, false),
    (8, 0b0100, true, false, true),
    (8, 0b0100, true, true, false),
    (8, 0b1000, false, true, true),
    (8, 0b1000, true, false, false),
    (8, 0b1100, true, true, true),
];

/// Whether a user may open a file of the user 7 and of this mode with these bits.
fn may_open_mode(alloc: Global, user: u32, mode: u32, bits: FdBits) -> Result<bool, NoMemory> {
    let mut file = file(alloc, b"/f", 7)?;
    file.mode = mode;
    Ok(may_open(user, &file, bits))
}

/// User 0 may open any file, the owner by the low bits of the mode, others by the next.
#[test]
fn files_open_to_whom_their_mode_says(rt: HostRuntime) -> Result<(), Fail> {
    for (user, mode, read, append, may) in &MODES {
        let bits = FdBits {
            read: *read,
            append: *append,
        };
        let found = may_open_mode(rt.alloc(), *user, *mode, bits)?;
        assert_eq!(rt;
            found,
            *may,
            "user {user}, mode {mode:04b}, {read} {append}"
        );
    }
    Ok(())
}

/// A file of this path and owner.
fn file(alloc: Global, path: &[u8], owner: u32) -> Result<FileEntry, NoMemory> {
    let path = Bytes::from_slice(alloc, path)?;
    let content = Bytes::from_slice(alloc, b"")?;
    Ok(FileEntry {
        path,
        owner,
        mode: 0,
        kind: StreamKind::Source,
        content,
    })
}

/// Whether the paths of files ascend, the first from a text.
fn are_ascending_from(before: &[u8], files: &[FileEntry]) -> bool
    ensures { result ≡ true → AreAscendingFrom before.now files.now }
{
    match files {
        [] => true,
        [file, others @ ..] => {
            before.cmp(file.path.as_slice()).is_lt()
                && are_ascending_from(file.path.as_slice(), others)
        }
    }
}

/// Whether the paths of files ascend.
fn are_ascending(files: &[FileEntry]) -> bool
    ensures { result ≡ true → AreAscending files.now }
{
    match files {
        [] => true,
        [file, others @ ..] => are_ascending_from(file.path.as_slice(), others),
    }
}

/// The owner of the file of a path among files, if there is one.
fn owner_at(rt: &impl Abort, files: &[FileEntry], path: &[u8]) -> Option<u32> {
    assert!(rt; are_ascending(files), "the paths do not ascend");
    file_at(files, path).map(|file| file.owner)
}

/// Files of these paths, each owned by the user of its position.
fn files_at(alloc: Global, paths: &[&str]) -> Result<Vec<FileEntry>, NoMemory> {
    let mut files = Vec::new(alloc);
    for (path, owner) in paths.iter().zip(0..1024) {
        files.push(file(alloc, path.as_bytes(), owner)?)?;
    }
    Ok(files)
}

const THREE: &[&str] = &["/b", "/d", "/f"];

const PREFIXES: &[&str] = &["/a", "/a.b", "/a/b", "/a/b/c"];

/// The paths of files, a path, and the position of its file.
#[rattlefmt::skip]
static FOUND: [(&[&str], &str, Option<u32>); 20] = [
    (&[], "/a", None),
    (&["/a"], "/a", Some(0)),
    (&["/a"], "/", None),
    (&["/a"], "/b", None),
    (THREE, "/a", None),
    (THREE, "/b", Some(0)),
    (THREE, "/c", None),
    (THREE, "/d", Some(1)),
    (THREE, "/e", None),
    (THREE, "/f", Some(2)),
    (THREE, "/g", None),
    (PREFIXES, "/", None),
    (PREFIXES, "/a", Some(0)),
    (PREFIXES, "/a.", None),
    (PREFIXES, "/a.b", Some(1)),
    (PREFIXES, "/a/", None),
    (PREFIXES, "/a/b", Some(2)),
    (PREFIXES, "/a/b/", None),
    (PREFIXES, "/a/b/c", Some(3)),
    (PREFIXES, "/a/b/c/d", None),
];

/// The owner of the file of a path among files of these paths, if there is one.
fn owner_among(
    rt: &(impl Abort + AllocGlobal),
    paths: &[&str],
    path: &str,
) -> Result<Option<u32>, NoMemory> {
    let files = files_at(rt.alloc(), paths)?;
    Ok(owner_at(rt, files.as_slice(), path.as_bytes()))
}

/// The file of each path is found, and none at any other path.
#[test]
fn files_are_found_by_their_paths(rt: HostRuntime) -> Result<(), Fail> {
    for (paths, path, found) in &FOUND {
        let answer = owner_among(&rt, paths, path)?;
        assert_eq!(rt; answer, *found, "at {path}");
    }
    Ok(())
}

/// The file at `/` and a number of four digits, which the user of the number owns.
fn numbered_file(alloc: Global, number: u32) -> Result<FileEntry, NoMemory> {
    let path = format!(in alloc; "/{number:04}")?;
    file(alloc, path.as_bytes(), number)
}

/// The files of the numbers below 1,024.
fn many_files(alloc: Global) -> Result<Vec<FileEntry>, NoMemory> {
    let mut files = Vec::new(alloc);
    for k in 0..1024 {
        files.push(numbered_file(alloc, k)?)?;
    }
    Ok(files)
}

/// The owner among files at `/` and a number of four digits.
fn owner_of_number(
    rt: &(impl Abort + AllocGlobal),
    files: &[FileEntry],
    number: u32,
) -> Result<Option<u32>, NoMemory> {
    let path = format!(in rt.alloc(); "/{number:04}")?;
    Ok(owner_at(rt, files, path.as_bytes()))
}

/// Each of 1,024 files is found, and none behind them.
#[test]
fn each_of_many_files_is_found(rt: HostRuntime) -> Result<(), Fail> {
    let files = many_files(rt.alloc())?;
    for k in 0..1025 {
        let wanted = if k < 1024 { Some(k) } else { None };
        assert_eq!(rt; owner_of_number(&rt, files.as_slice(), k)?, wanted);
    }
    Ok(())
}
