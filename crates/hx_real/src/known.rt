//! What is known of files that only this system changes: how long they are, and those that are open.
use std::alloc::Global;
use std::collections::HashMap;
use std::fs::File;

// So many files are known at most; then it begins anew.
const MOST: usize = 128;

// So many files are open to be written at most.
const MOST_ENDS: usize = 4;

/// What is known of files by their paths. Where there is no memory for something, it isn't known.
#[derive(Drop)]
pub(crate) struct Known {
    alloc: Global,
    // Their lengths in bytes, None of an absent file.
    lens: HashMap<String, Option<u64>>,
    // Those that are open to be read.
    open: HashMap<String, File>,
    // Those that are open at their ends.
    ends: HashMap<String, File>,
}

// Puts a file among others, in place of all of them where they are too many.
fn keep(files: &mut HashMap<String, File>, most: usize, alloc: Global, path: &str, file: File) {
    if files.len() >= most {
        files.clear();
    }
    if let Ok(path) = String::from_str(alloc, path) {
        let _ = files.insert(path, file);
    }
}

impl Known {
    pub(crate) fn new(alloc: Global) -> Known {
        Known {
            alloc,
            lens: HashMap::new(alloc),
            open: HashMap::new(alloc),
            ends: HashMap::new(alloc),
        }
    }

    /// The length of a file, if it is known: None in it where the file is absent.
    pub(crate) fn len(&self, path: &str) -> Option<Option<u64>> {
        match self.lens.get(path) {
            Some(len) => Some(*len),
            None => None,
        }
    }

    /// A file has so many bytes, or is absent.
    pub(crate) fn set_len(&mut self, path: &str, len: Option<u64>) {
        if let Some(known) = self.lens.get_mut(path) {
            *known = len;
            return;
        }
        if self.lens.len() >= MOST {
            self.lens.clear();
        }
        if let Ok(path) = String::from_str(self.alloc, path) {
            let _ = self.lens.insert(path, len);
        }
    }

    /// A file that is open to be read.
    pub(crate) fn file(&self, path: &str) -> Option<&File> {
        self.open.get(path)
    }

    /// Keeps a file open to be read.
    pub(crate) fn keep_file(&mut self, path: &str, file: File) {
        keep(&mut self.open, MOST, self.alloc, path, file);
    }

    /// A file that is open at its end.
    pub(crate) fn end(&self, path: &str) -> Option<&File> {
        self.ends.get(path)
    }

    /// A file that was open at its end, which it is no more.
    pub(crate) fn take_end(&mut self, path: &str) -> Option<File> {
        self.ends.remove(path)
    }

    /// Keeps a file open at its end.
    pub(crate) fn keep_end(&mut self, path: &str, file: File) {
        keep(&mut self.ends, MOST_ENDS, self.alloc, path, file);
    }

    /// A path may name another file or none: nothing of it is known.
    pub(crate) fn forget(&mut self, path: &str) {
        let _ = self.lens.remove(path);
        let _ = self.open.remove(path);
        let _ = self.ends.remove(path);
    }
}
