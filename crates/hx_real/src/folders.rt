//! Folders of the system on the way from a root to a file.
ghost use Rattle.std.specs.Prelude.{◌≡◌, ◌↔◌, ◌⊎◌, IfSome, IsTrue, take};
ghost use Rattle.std.specs.IoError.{error_kind};
ghost use Rattle.std.specs.declared.io.ErrorKind.TheVariants.{NotADirectory, NotFound};

use std::fs::File;
use std::io::ErrorKind;
use std::rt::Files;
use std::{fs, io};

/// Whether an error says that a path names nothing, since it or a folder on its way is absent.
pub(crate) fn is_absence(error: &io::Error) -> bool
    ensures { IsTrue result ↔ ((error_kind error.now ≡ NotFound) ⊎ (error_kind error.now ≡ NotADirectory)) }
{
    matches!(error.kind(), ErrorKind::NotFound | ErrorKind::NotADirectory)
}

/// The folder of a path.
pub(crate) fn folder_of(path: &str) -> &str {
    match path.rsplit_once('/') {
        Some((folder, _)) => folder,
        None => ".",
    }
}

// The folder whose path ends here, where a slash follows.
fn folder_at(path: &str, end: usize) -> Option<&str>
    ensures { IfSome result (λ folder. folder.now ≡ take end path.now) }
{
    match path.split_at_checked(end) {
        Some((folder, rest)) if rest.starts_with('/') => Some(folder),
        _ => None,
    }
}

fn is_folder<R: Files>(rt: &R, path: &str) -> bool {
    match fs::metadata(rt, path) {
        Ok(metadata) => metadata.is_dir(),
        Err(_) => false,
    }
}

fn make_folder<R: Files>(rt: &R, path: &str) -> io::Result<()> {
    if is_folder(rt, path) {
        return Ok(());
    }
    fs::create_dir(rt, path)
}

/// Makes the folders of a path that are absent, but for the first `root` bytes of it.
pub(crate) fn make_folders<R: Files>(rt: &R, path: &str, root: usize) -> io::Result<()> {
    for end in root..path.len() {
        if end > root
            && let Some(folder) = folder_at(path, end)
        {
            make_folder(rt, folder)?;
        }
    }
    Ok(())
}

/// Syncs a folder, so that a crash leaves the names that it has. One that is absent has none.
pub(crate) fn sync_folder<R: Files<File = File>>(rt: &R, path: &str) -> io::Result<()> {
    match File::open(rt, path) {
        Ok(folder) => folder.sync_all(),
        Err(error) if is_absence(&error) => Ok(()),
        Err(error) => Err(error),
    }
}

/// Syncs the folders of a path, from the one whose path is its first `root` bytes.
pub(crate) fn sync_folders<R: Files<File = File>>(
    rt: &R,
    path: &str,
    root: usize,
) -> io::Result<()> {
    for end in root..path.len() {
        if let Some(folder) = folder_at(path, end) {
            sync_folder(rt, folder)?;
        }
    }
    Ok(())
}
