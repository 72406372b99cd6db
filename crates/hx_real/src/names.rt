//! Which names lie inside a folder, and their paths.
ghost use Rattle.std.specs.Prelude.{◌≡◌, ◌↔◌, All, IfOk, IsTrue, string_bytes};
ghost use Rattle.hx_real.specs.Names.{IsPart, StaysInside, parts, path_in, root_of};

use std::alloc::{AllocError, Global};

// Whether this may stand between the slashes of a name.
fn is_part(part: &str) -> bool
    ensures { IsTrue result ↔ IsPart part.now }
{
    !matches!(part, "" | "." | "..")
}

// Whether each part of a name is one step down.
fn steps_down(name: &str) -> bool
    ensures { IsTrue result ↔ All IsPart (parts name.now) }
{
    name.split('/').all(|part| is_part(part))
}

/// Whether the file of this name lies inside the folder: the name isn't empty, has no NUL, and each of its parts
/// between slashes is neither empty nor `.` or `..`.
pub(crate) fn stays_inside(name: &str) -> bool
    ensures { IsTrue result ↔ StaysInside name.now }
{
    steps_down(name) && !name.as_bytes().contains(&0)
}

/// A folder by its path, where that is empty the current one.
pub(crate) fn root_of(alloc: Global, root: &str) -> Result<String, AllocError>
    ensures { IfOk result (λ path. string_bytes path ≡ root_of root.now) }
{
    String::from_str(alloc, if root.is_empty() { "." } else { root })
}

/// The path of a file inside a folder.
pub(crate) fn path_in(root: &String, name: &str) -> Result<String, AllocError>
    ensures { IfOk result (λ path. string_bytes path ≡ path_in (string_bytes root.now) name.now) }
{
    let alloc = *root.allocator();
    let mut path = String::with_capacity(alloc, root.len())?;
    path.push_str(root.as_str())?;
    path.push_str("/")?;
    path.push_str(name)?;
    Ok(path)
}

#[cfg(test)]
mod tests {
    use super::*;

    #[test]
    fn names_that_stay_inside(rt: HostRuntime) {
        let cases = [
            ("a", true),
            ("t.work/journal", true),
            ("t/dataset/Norder=0/Dir=0/Npix=1.parquet", true),
            ("...", true),
            (".a", true),
            ("a./b..", true),
            (" ", true),
            ("é\\", true),
            ("", false),
            (".", false),
            ("..", false),
            ("/", false),
            ("/a", false),
            ("a/", false),
            ("a//b", false),
            ("./a", false),
            ("../a", false),
            ("a/..", false),
            ("a/../b", false),
            ("a/./b", false),
            ("a\0", false),
            ("\0/..", false),
        ];
        for (name, is_inside) in cases {
            assert_eq!(rt; stays_inside(name), is_inside, "{name:?}");
        }
    }
}
