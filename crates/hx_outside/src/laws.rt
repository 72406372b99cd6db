//! How runs of calls are joined, over any store.
ghost use Rattle.hx_outside.specs.Laws.{OneFileTwice, StableFilesStay, UnchangedTwice};

use crate::Store;

/// Two runs of calls that change nothing are one that changes nothing.
pub fn unchanged_twice<S: Store>()
    ensures { UnchangedTwice S.disk }
{}

/// Two runs of calls that change one file are one that changes that file alone.
pub fn one_file_twice<S: Store>()
    ensures { OneFileTwice S.disk }
{}

/// A stable file stays stable while another changes.
pub fn stable_files_stay<S: Store>()
    ensures { StableFilesStay S.disk }
{}
