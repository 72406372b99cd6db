//! Files that change while they are read, and reads that are interrupted. Each test begins in an empty folder.
use super::{FileSource, read_of};
use hx_outside::{Failed, Source};
use std::cell::Cell;
use std::fs::File;
use std::io::ErrorKind;
use std::os::unix::fs::FileExt;
use std::test::Fail;
use std::{fs, io};

// Changes how many bytes a file has.
fn resize(rt: &HostRuntime, path: &str, size: u64) -> Result<(), Fail> {
    Ok(File::options().write(true).open(rt, path)?.set_len(size)?)
}

#[test]
fn a_file_that_grows_is_read_as_told(rt: HostRuntime) -> Result<(), Fail> {
    fs::write(&rt, "grown.csv", "abcdef")?;
    let mut source = FileSource::new(&rt, rt.alloc(), "grown.csv")?;
    assert_eq!(rt; source.len(), Ok(6));
    assert!(rt; source.file.is_none());
    fs::write(&rt, "grown.csv", "abcdefgh")?;
    assert_eq!(rt; source.len(), Ok(6));
    let mut buf = [b'.'; 8];
    assert_eq!(rt; source.read_at(0, &mut buf[..4]), Ok(4));
    assert!(rt; source.file.is_some());
    assert_eq!(rt; source.read_at(4, &mut buf[4..]), Ok(2));
    assert!(rt; source.file.is_none());
    assert_eq!(rt; buf.as_slice(), b"abcdef..".as_slice());
    assert_eq!(rt; source.read_at(6, &mut buf), Ok(0));
    assert_eq!(rt; source.read_at(u64::MAX, &mut buf), Ok(0));
    assert_eq!(rt; source.faults, 0);
    Ok(fs::remove_file(&rt, "grown.csv")?)
}

#[test]
fn a_file_that_shrinks_has_failed(rt: HostRuntime) -> Result<(), Fail> {
    fs::write(&rt, "shrunk.csv", "abcdef")?;
    let mut source = FileSource::new(&rt, rt.alloc(), "shrunk.csv")?;
    assert_eq!(rt; source.len(), Ok(6));
    resize(&rt, "shrunk.csv", 3)?;
    let mut buf = [b'.'; 8];
    assert_eq!(rt; source.read_at(0, &mut buf), Ok(3));
    assert!(rt; source.file.is_some());
    assert_eq!(rt; source.read_at(3, &mut buf), Err(Failed));
    assert!(rt; source.file.is_none());
    assert_eq!(rt; source.faults, 1);
    assert_eq!(rt; source.len(), Ok(6));
    Ok(fs::remove_file(&rt, "shrunk.csv")?)
}

#[test]
fn what_is_no_file_has_failed(rt: HostRuntime) -> Result<(), Fail> {
    let mut buf = [b'.'; 8];
    for path in ["absent.csv", "."] {
        let mut source = FileSource::new(&rt, rt.alloc(), path)?;
        assert_eq!(rt; source.len(), Err(Failed), "{path}");
        assert_eq!(rt; source.read_at(0, &mut buf), Err(Failed), "{path}");
        assert_eq!(rt; source.faults, 2, "{path}");
    }
    Ok(())
}

// Reads are interrupted so often, and then fail or give a byte.
#[derive(Drop)]
struct Interrupted {
    left: Cell<u64>,
    fails: bool,
}

impl FileExt for Interrupted {
    fn read_at(&self, buf: &mut [u8], _offset: u64) -> io::Result<usize> {
        let left = self.left.get();
        if left > 0 {
            self.left.set(left - 1);
            return Err(io::Error::from(ErrorKind::Interrupted));
        }
        if self.fails || buf.is_empty() {
            return Err(io::Error::from(ErrorKind::TimedOut));
        }
        buf[0] = b'x';
        Ok(1)
    }

    fn write_at(&self, _buf: &[u8], _offset: u64) -> io::Result<usize> {
        Ok(0)
    }
}

#[test]
fn an_interrupted_read_is_done_again(rt: HostRuntime) {
    for (fails, answer) in [(false, Ok(1)), (true, Err(Failed))] {
        let file = Interrupted {
            left: Cell::new(3),
            fails,
        };
        let mut buf = [b'.'; 2];
        assert_eq!(rt; read_of(&file, 0, &mut buf), answer);
        assert_eq!(rt; file.left.get(), 0);
    }
}
