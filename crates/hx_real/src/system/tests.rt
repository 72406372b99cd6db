//! Which folders are synced, told by which are opened. Each test begins in an empty folder.
use super::System;
use std::alloc::Allocator;
use std::cell::Cell;
use std::fs::{File, Metadata, OpenOptions};
use std::io::ErrorKind;
use std::rt::Files;
use std::test::Fail;
use std::{fs, io};

// The system's files. It counts the folders that are opened, which may fail.
#[derive(Drop)]
struct Watched<'a> {
    rt: &'a HostRuntime,
    folders: Cell<u64>,
    fails: Cell<bool>,
}

impl Files for Watched<'_> {
    type File = File;

    type Dir = <HostRuntime as Files>::Dir;

    fn open_file(&self, how: &OpenOptions, path: &str) -> io::Result<File> {
        if fs::metadata(self.rt, path).is_ok_and(|metadata| metadata.is_dir()) {
            if self.fails.get() {
                return Err(io::Error::from(ErrorKind::TimedOut));
            }
            self.folders.set(self.folders.get().saturating_add(1));
        }
        self.rt.open_file(how, path)
    }

    fn open_dir(&self, path: &str) -> io::Result<<HostRuntime as Files>::Dir> {
        self.rt.open_dir(path)
    }

    fn metadata(&self, path: &str) -> io::Result<Metadata> {
        self.rt.metadata(path)
    }

    fn symlink_metadata(&self, path: &str) -> io::Result<Metadata> {
        self.rt.symlink_metadata(path)
    }

    fn copy(&self, from: &str, to: &str) -> io::Result<u64> {
        self.rt.copy(from, to)
    }

    fn rename(&self, from: &str, to: &str) -> io::Result<()> {
        self.rt.rename(from, to)
    }

    fn remove_file(&self, path: &str) -> io::Result<()> {
        self.rt.remove_file(path)
    }

    fn create_dir(&self, path: &str) -> io::Result<()> {
        self.rt.create_dir(path)
    }

    fn remove_dir(&self, path: &str) -> io::Result<()> {
        self.rt.remove_dir(path)
    }

    fn remove_dir_all<B: Allocator>(&self, alloc: B, path: &str) -> io::Result<()> {
        self.rt.remove_dir_all(alloc, path)
    }
}

fn watched_system(rt: &HostRuntime) -> System<Watched<'_>> {
    let files = Watched {
        rt,
        folders: Cell::new(0),
        fails: Cell::new(false),
    };
    System::new(files, 1, rt.alloc())
}

// A call on a file by its path.
#[derive(Clone, Copy, Debug)]
enum Call<'a> {
    Append(&'a str),
    Sync(&'a str),
    Rename(&'a str, &'a str),
    Remove(&'a str),
}

fn is_done(system: &mut System<Watched<'_>>, call: Call<'_>) -> bool {
    match call {
        Call::Append(path) => system.append(path, b"x").is_ok(),
        Call::Sync(path) => system.sync(path).is_ok(),
        Call::Rename(from, to) => system.rename(from, to).is_ok(),
        Call::Remove(path) => system.remove(path).is_ok(),
    }
}

#[test]
fn folders_are_synced_where_names_came_or_went(rt: HostRuntime) -> Result<(), Fail> {
    let mut system = watched_system(&rt);
    let cases = [
        (Call::Append("./a/b/x"), 0),
        (Call::Sync("./a/b/x"), 3),
        (Call::Append("./a/b/x"), 0),
        (Call::Sync("./a/b/x"), 0),
        (Call::Sync("./a/b/absent"), 0),
        (Call::Append("./a/b/y"), 0),
        (Call::Sync("./a/b/y"), 1),
        (Call::Append("./z"), 0),
        (Call::Sync("./z"), 1),
        (Call::Sync("./a/b/x"), 0),
        (Call::Rename("./a/b/x", "./c/x"), 2),
        (Call::Rename("./c/x", "./c/w"), 1),
        (Call::Sync("./c/w"), 0),
        (Call::Remove("./a/b/y"), 3),
        (Call::Remove("./a/b/y"), 0),
        (Call::Rename("./a/b/y", "./c/y"), 0),
        (Call::Rename("./z", "./z"), 0),
    ];
    for (call, folders) in cases {
        assert!(rt; is_done(&mut system, call), "{call:?}");
        assert_eq!(rt; system.rt.folders.replace(0), folders, "{call:?}");
    }
    fs::remove_file(&rt, "z")?;
    fs::remove_dir_all(&rt, "a")?;
    Ok(fs::remove_dir_all(&rt, "c")?)
}

// A name that came or went, while its folder could not be synced, is stable only once that is done.
#[test]
fn what_was_not_synced_is_synced_later(rt: HostRuntime) -> Result<(), Fail> {
    let mut system = watched_system(&rt);
    // A call, whether folders can't be synced, whether it is done, and how many folders are.
    let cases = [
        (Call::Append("./a/x"), false, true, 0),
        (Call::Append("./b/y"), false, true, 0),
        (Call::Sync("./b/y"), false, true, 2),
        (Call::Rename("./a/x", "./b/x"), true, false, 0),
        (Call::Sync("./b/x"), true, false, 0),
        (Call::Sync("./b/x"), false, true, 1),
        (Call::Remove("./b/y"), true, false, 0),
        (Call::Sync("./b/y"), true, false, 0),
        (Call::Sync("./b/y"), false, true, 1),
        (Call::Sync("./b/x"), true, true, 0),
    ];
    for (call, fails, done, folders) in cases {
        system.rt.fails.set(fails);
        assert_eq!(rt; is_done(&mut system, call), done, "{call:?}");
        assert_eq!(rt; system.rt.folders.replace(0), folders, "{call:?}");
    }
    fs::remove_dir_all(&rt, "a")?;
    Ok(fs::remove_dir_all(&rt, "b")?)
}
