//! A folder in the test's own. Each test begins in an empty folder.
use super::FolderStore;
use hx_outside::{Store, StoreError};
use std::fs;
use std::test::Fail;

// A call on files by their names.
#[derive(Clone, Copy, Debug)]
enum Call<'a> {
    Len(&'a str),
    // from there on, into so much room
    Read(&'a str, u64, usize),
    Append(&'a str, &'a [u8]),
    Sync(&'a str),
    SetByte(&'a str, u64, u8),
    Cut(&'a str, u64),
    Rename(&'a str, &'a str),
    Remove(&'a str),
}

// The length or the count that a call answers, where it answers one.
type Answer = Result<Option<u64>, StoreError>;

const DONE: Answer = Ok(None);

const ABSENT: Answer = Ok(None);

const FAILED: Answer = Err(StoreError::Failed);

fn some(count: usize) -> Option<u64> {
    Some(count as u64)
}

fn answer(store: &mut FolderStore<HostRuntime>, call: Call<'_>) -> Answer {
    let mut buf = [b'.'; 16];
    match call {
        Call::Len(name) => store.len(name),
        Call::Read(name, at, room) => store.read(name, at, &mut buf[..room.min(16)]).map(some),
        Call::Append(name, bytes) => store.append(name, bytes).map(|()| None),
        Call::Sync(name) => store.sync(name).map(|()| None),
        Call::SetByte(name, at, value) => store.set_byte(name, at, value).map(|()| None),
        Call::Cut(name, len) => store.cut(name, len).map(|()| None),
        Call::Rename(from, to) => store.rename(from, to).map(|()| None),
        Call::Remove(name) => store.remove(name).map(|()| None),
    }
}

// Every call on one file.
fn calls_on(name: &str) -> [Call<'_>; 9] {
    [
        Call::Len(name),
        Call::Read(name, 0, 4),
        Call::Read(name, u64::MAX, 4),
        Call::Sync(name),
        Call::SetByte(name, 0, b'y'),
        Call::SetByte(name, u64::MAX, b'y'),
        Call::Cut(name, 0),
        Call::Rename(name, name),
        Call::Remove(name),
    ]
}

#[test]
fn calls_in_turn(rt: HostRuntime) -> Result<(), Fail> {
    let mut store = FolderStore::new(&rt, rt.alloc(), "")?;
    // A call, its answer, and what the file `a` or, where that is absent, `b` holds then.
    let cases: [(Call<'_>, Answer, &str); 24] = [
        (Call::Append("b", b"old"), DONE, "old"),
        (Call::Append("a", b""), DONE, ""),
        (Call::Len("a"), Ok(Some(0)), ""),
        (Call::Append("a", b"abc"), DONE, "abc"),
        (Call::Append("a", b"defgh"), DONE, "abcdefgh"),
        (Call::Len("a"), Ok(Some(8)), "abcdefgh"),
        (Call::Sync("a"), DONE, "abcdefgh"),
        (Call::Read("a", 0, 6), Ok(Some(6)), "abcdefgh"),
        (Call::Read("a", 6, 6), Ok(Some(2)), "abcdefgh"),
        (Call::Read("a", 8, 6), Ok(Some(0)), "abcdefgh"),
        (Call::Read("a", u64::MAX, 6), Ok(Some(0)), "abcdefgh"),
        (Call::Read("a", 0, 0), Ok(Some(0)), "abcdefgh"),
        (Call::SetByte("a", 1, b'B'), DONE, "aBcdefgh"),
        (Call::SetByte("a", 7, b'H'), DONE, "aBcdefgH"),
        (Call::SetByte("a", 8, b'I'), DONE, "aBcdefgH"),
        (Call::SetByte("a", u64::MAX, b'J'), DONE, "aBcdefgH"),
        (Call::Cut("a", u64::MAX), DONE, "aBcdefgH"),
        (Call::Cut("a", 8), DONE, "aBcdefgH"),
        (Call::Cut("a", 3), DONE, "aBc"),
        (Call::Rename("a", "a"), DONE, "aBc"),
        (Call::Rename("a", "b"), DONE, "aBc"),
        (Call::Len("a"), ABSENT, "aBc"),
        (Call::Cut("b", 1), DONE, "a"),
        (Call::Remove("a"), DONE, "a"),
    ];
    for (call, wanted, held) in cases {
        assert_eq!(rt; answer(&mut store, call), wanted, "{call:?}");
        let name = if fs::exists(&rt, "a")? { "a" } else { "b" };
        let found = fs::read_to_string(&rt, name)?;
        assert_eq!(rt; found.as_str(), held, "{call:?}");
    }
    assert_eq!(rt; store.faults, 0);
    assert_eq!(rt; store.remove("b"), Ok(()));
    assert_eq!(rt; fs::exists(&rt, "b")?, false);
    Ok(())
}

#[test]
fn what_is_read(rt: HostRuntime) -> Result<(), Fail> {
    let mut store = FolderStore::new(&rt, rt.alloc(), ".")?;
    fs::write(&rt, "a", "abcdefgh")?;
    let cases: [(u64, &[u8]); 4] = [
        (0, b"abcdef"),
        (2, b"cdefgh"),
        (5, b"fgh..."),
        (8, b"......"),
    ];
    for (at, held) in cases {
        let mut buf = [b'.'; 6];
        assert!(rt; store.read("a", at, &mut buf).is_ok());
        assert_eq!(rt; buf.as_slice(), held, "{at}");
    }
    Ok(fs::remove_file(&rt, "a")?)
}

// Absent, also where a file or nothing stands in the place of its folder.
#[test]
fn absent_files(rt: HostRuntime) -> Result<(), Fail> {
    let mut store = FolderStore::new(&rt, rt.alloc(), "")?;
    fs::write(&rt, "file", "x")?;
    for name in ["a", "b/c", "b/d/e", "file/a"] {
        for call in calls_on(name) {
            let is_read = matches!(call, Call::Read(..));
            let wanted = if is_read { Ok(Some(0)) } else { ABSENT };
            assert_eq!(rt; answer(&mut store, call), wanted, "{call:?}");
        }
        assert_eq!(rt; store.rename(name, "file"), Ok(()), "{name}");
        assert_eq!(rt; store.rename(name, "b/f"), Ok(()), "{name}");
    }
    assert_eq!(rt; store.faults, 0);
    assert_eq!(rt; fs::exists(&rt, "b")?, false);
    assert_eq!(rt; fs::read_to_string(&rt, "file")?.as_str(), "x");
    Ok(fs::remove_file(&rt, "file")?)
}

#[test]
fn folders_are_made(rt: HostRuntime) -> Result<(), Fail> {
    fs::create_dir(&rt, "root")?;
    let mut store = FolderStore::new(&rt, rt.alloc(), "root")?;
    let cases: [(Call<'_>, &str, &str); 5] = [
        (Call::Append("a/b/c", b"x"), "root/a/b/c", "x"),
        (Call::Sync("a/b/c"), "root/a/b/c", "x"),
        (Call::Append("a/b/d", b"y"), "root/a/b/d", "y"),
        (Call::Rename("a/b/c", "e/f/g"), "root/e/f/g", "x"),
        (Call::Sync("e/f/g"), "root/e/f/g", "x"),
    ];
    for (call, path, held) in cases {
        assert_eq!(rt; answer(&mut store, call), DONE, "{call:?}");
        let found = fs::read_to_string(&rt, path)?;
        assert_eq!(rt; found.as_str(), held, "{call:?}");
    }
    assert_eq!(rt; fs::exists(&rt, "root/a/b/c")?, false);
    Ok(fs::remove_dir_all(&rt, "root")?)
}

// A root that is absent is not made.
#[test]
fn absent_roots(rt: HostRuntime) -> Result<(), Fail> {
    let mut store = FolderStore::new(&rt, rt.alloc(), "root")?;
    let cases = [
        (Call::Len("a"), ABSENT),
        (Call::Sync("a"), DONE),
        (Call::Append("a", b"x"), FAILED),
        (Call::Append("a/b", b"x"), FAILED),
    ];
    for (call, wanted) in cases {
        assert_eq!(rt; answer(&mut store, call), wanted, "{call:?}");
    }
    assert_eq!(rt; store.faults, 2);
    assert_eq!(rt; fs::exists(&rt, "root")?, false);
    Ok(())
}

// Folders in the place of files, and a file in the place of a folder.
#[test]
fn names_of_folders_have_failed(rt: HostRuntime) -> Result<(), Fail> {
    let mut store = FolderStore::new(&rt, rt.alloc(), "")?;
    fs::create_dir(&rt, "folder")?;
    fs::write(&rt, "folder/a", "x")?;
    for call in calls_on("folder") {
        assert_eq!(rt; answer(&mut store, call), FAILED, "{call:?}");
    }
    let cases = [
        Call::Append("folder", b"y"),
        Call::Rename("folder", "b"),
        Call::Rename("folder/a", "folder"),
        Call::Append("folder/a/b", b"y"),
        Call::Rename("folder/a", "folder/a/b"),
    ];
    for call in cases {
        assert_eq!(rt; answer(&mut store, call), FAILED, "{call:?}");
    }
    assert_eq!(rt; store.faults, 14);
    assert_eq!(rt; fs::read_to_string(&rt, "folder/a")?.as_str(), "x");
    Ok(fs::remove_dir_all(&rt, "folder")?)
}

#[test]
fn names_that_leave_the_root_have_failed(rt: HostRuntime) -> Result<(), Fail> {
    fs::create_dir(&rt, "root")?;
    fs::write(&rt, "root/a", "x")?;
    fs::write(&rt, "out", "o")?;
    let mut store = FolderStore::new(&rt, rt.alloc(), "root")?;
    for name in ["", "../out", "a/../../out", "./a", "a/", "//a", "a\0b"] {
        for call in calls_on(name) {
            assert_eq!(rt; answer(&mut store, call), FAILED, "{call:?}");
        }
        for call in [
            Call::Append(name, b"y"),
            Call::Rename(name, "a"),
            Call::Rename("a", name),
        ] {
            assert_eq!(rt; answer(&mut store, call), FAILED, "{call:?}");
        }
    }
    assert_eq!(rt; store.faults, 84);
    assert_eq!(rt; fs::read_to_string(&rt, "root/a")?.as_str(), "x");
    assert_eq!(rt; fs::read_to_string(&rt, "out")?.as_str(), "o");
    fs::remove_file(&rt, "out")?;
    Ok(fs::remove_dir_all(&rt, "root")?)
}

// Where the system lets nobody write, as it doesn't let those who aren't the superuser.
#[test]
fn folders_that_may_not_be_written(rt: HostRuntime) -> Result<(), Fail> {
    let mut store = FolderStore::new(&rt, rt.alloc(), "")?;
    fs::create_dir(&rt, "d")?;
    fs::write(&rt, "d/a", "x")?;
    let open = fs::metadata(&rt, "d")?.permissions();
    let mut locked = open.clone()?;
    locked.set_readonly(true);
    fs::set_permissions(&rt, "d", locked)?;
    let is_refused = fs::write(&rt, "d/other", "").is_err();
    for call in [
        Call::Append("d/b", b"x"),
        Call::Append("d/e/f", b"x"),
        Call::Rename("d/a", "c"),
        Call::Remove("d/a"),
    ] {
        let wanted = if is_refused { FAILED } else { DONE };
        assert_eq!(rt; answer(&mut store, call), wanted, "{call:?}");
    }
    assert_eq!(rt; store.faults, if is_refused { 4 } else { 0 });
    fs::set_permissions(&rt, "d", open)?;
    assert_eq!(rt; store.remove("c"), Ok(()));
    Ok(fs::remove_dir_all(&rt, "d")?)
}

#[test]
fn a_large_file_in_parts(rt: HostRuntime) -> Result<(), Fail> {
    let mut store = FolderStore::new(&rt, rt.alloc(), "")?;
    let mut part = vec![in rt.alloc(); b'a'; 1_000_003]?;
    part.push(b'z')?;
    for _ in 0..5 {
        assert_eq!(rt; store.append("work/large", part.as_slice()), Ok(()));
    }
    assert_eq!(rt; store.rename("work/large", "large"), Ok(()));
    let mut buf = vec![in rt.alloc(); b'.'; 5_000_000]?;
    assert_eq!(rt;
        store.read("large", 1_000_003, buf.as_mut_slice()),
        Ok(4_000_017)
    );
    let ends = buf.iter().filter(|byte| **byte == b'z').count();
    assert_eq!(rt; ends, 5);
    assert_eq!(rt; &buf[4_000_016..4_000_018], b"z.".as_slice());
    fs::remove_dir(&rt, "work")?;
    Ok(fs::remove_file(&rt, "large")?)
}
