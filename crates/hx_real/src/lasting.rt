//! Which folders need no sync: what is known of the names that last.
use std::alloc::Global;
use std::collections::HashMap;

// So many folders are known at most.
const MOST: usize = 1024;

/// The folders whose paths a crash leaves, as far as they are known, and in which of them all names last.
#[derive(Drop)]
pub(crate) struct Lasting {
    alloc: Global,
    // By its path, whether no name came or went in a folder since it was synced.
    settled: HashMap<String, bool>,
}

impl Lasting {
    pub(crate) fn new(alloc: Global) -> Lasting {
        Lasting {
            alloc,
            settled: HashMap::new(alloc),
        }
    }

    /// Whether the path of a folder lasts.
    pub(crate) fn is_known(&self, path: &str) -> bool {
        self.settled.contains_key(path)
    }

    /// Whether the names in a folder last too.
    pub(crate) fn is_settled(&self, path: &str) -> bool {
        match self.settled.get(path) {
            Some(is_settled) => *is_settled,
            None => false,
        }
    }

    /// A name came or went in a folder.
    pub(crate) fn unsettle(&mut self, path: &str) {
        if let Some(is_settled) = self.settled.get_mut(path) {
            *is_settled = false;
        }
    }

    /// A folder was synced, and those above it unless its path lasts already. Where there is no memory for it, it is
    /// synced with those above it next time.
    pub(crate) fn settle(&mut self, path: &str) {
        if let Some(is_settled) = self.settled.get_mut(path) {
            *is_settled = true;
            return;
        }
        if self.settled.len() >= MOST {
            self.forget();
        }
        if let Ok(path) = String::from_str(self.alloc, path) {
            let _ = self.settled.insert(path, true);
        }
    }

    /// A folder was made, and its name doesn't last yet.
    pub(crate) fn forget(&mut self) {
        self.settled.clear();
    }
}
