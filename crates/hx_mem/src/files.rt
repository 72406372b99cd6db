//! Named files in a list, of which the first of a name counts.
ghost use Rattle.std.specs.Prelude.{◌≡◌, ◌≢◌, ◌<◌, ◌++◌, ℕ, true, false, Some, None, List, length, take, option_map, IfOk, IfSome, OnOk, OnErr};
ghost use Rattle.hx_outside.specs.Disk.{ReadsBytes};
ghost use Rattle.hx_outside.specs.Folders.{contents, file_length, set_at, written, appended, byte_set, cut_to, removed, renamed};
ghost use Rattle.hx_mem.specs.Files.{folder_of, IsAt, IsFound};

use crate::bytes::Bytes;
use crate::source::copy_from;
use std::alloc::{AllocError, Global};

/// A named file. One that was removed has no bytes.
#[derive(Drop)]
pub struct File {
    pub name: Bytes,
    pub bytes: Option<Bytes>,
}

impl File {
    fn append(&mut self, alloc: Global, bytes: &[u8]) -> Result<(), AllocError>
        ensures name { self.new.name ≡ self.old.name }
        ensures ok { OnOk result (self.new.bytes ≡ Some (contents self.old.bytes ++ bytes.now)) }
        ensures err { OnErr result (self.new.bytes ≡ self.old.bytes) }
    {
        match &mut self.bytes {
            Some(old) => old.append(bytes),
            None => {
                self.bytes = Some(Bytes::copied(alloc, bytes)?);
                Ok(())
            }
        }
    }

    fn len(&self) -> Option<u64>
        ensures { result ≡ option_map length self.now.bytes }
    {
        match &self.bytes {
            Some(bytes) => Some(bytes.len()),
            None => None,
        }
    }

    fn read(&self, at: u64, buf: &mut [u8]) -> usize
        ensures { ReadsBytes self.now.bytes at buf.old buf.new result }
    {
        match &self.bytes {
            Some(bytes) => copy_from(bytes.as_slice(), at, buf),
            None => 0,
        }
    }

    fn set(&mut self, at: u64, value: u8)
        ensures name { self.new.name ≡ self.old.name }
        ensures bytes { self.new.bytes ≡ option_map (set_at at value) self.old.bytes }
    {
        if let Some(bytes) = &mut self.bytes {
            bytes.set(at, value);
        }
    }

    fn cut(&mut self, len: u64)
        ensures name { self.new.name ≡ self.old.name }
        ensures bytes { self.new.bytes ≡ option_map (take len) self.old.bytes }
    {
        if let Some(bytes) = &mut self.bytes {
            bytes.cut(len);
        }
    }

    fn copy(&self, alloc: Global) -> Result<File, AllocError>
        ensures { IfOk result (λ copy. copy ≡ self.now) }
    {
        let name = Bytes::copied(alloc, self.name.as_slice())?;
        let bytes = match &self.bytes {
            Some(bytes) => Some(Bytes::copied(alloc, bytes.as_slice())?),
            None => None,
        };
        Ok(File { name, bytes })
    }
}

/// A copy of the files.
pub fn copy(alloc: Global, files: &[File]) -> Result<Vec<File>, AllocError>
    ensures { IfOk result (λ copied. copied.items ≡ files.now) }
{
    let mut copied = Vec::new(alloc);
    for at in 0..files.len() {
        copied.push(files[at].copy(alloc)?)?;
    }
    Ok(copied)
}

/// The first file of a name.
pub fn find(files: &[File], name: &[u8]) -> Option<usize>
    ensures found { IsFound files.now name.now result }
    ensures within { IfSome result (λ at. at < length files.now) }
    ensures absent { result ≡ None → folder_of files.now name.now ≡ None }
{
    for at in 0..files.len() {
        if files[at].name.as_slice() == name {
            return Some(at);
        }
    }
    None
}

/// The file of a name, which is made, with no bytes, where there is none.
pub fn place(alloc: Global, files: &mut Vec<File>, name: &[u8]) -> Result<usize, AllocError>
    ensures found { IfOk result (λ at. IsAt files.new.items at name.now) }
    ensures within { IfOk result (λ at. at < length files.new.items) }
    ensures same { folder_of files.new.items ≡ folder_of files.old.items }
{
    if let Some(at) = find(files, name) {
        return Ok(at);
    }
    let at = files.len();
    files.push(File {
        name: Bytes::copied(alloc, name)?,
        bytes: None,
    })?;
    Ok(at)
}

/// Gives a file these bytes.
pub fn put_in(
    alloc: Global,
    files: &mut Vec<File>,
    name: &[u8],
    bytes: Bytes,
) -> Result<(), AllocError>
    ensures ok { OnOk result (folder_of files.new.items ≡ written name.now (Some bytes) (folder_of files.old.items)) }
    ensures err { OnErr result (folder_of files.new.items ≡ folder_of files.old.items) }
{
    let at = place(alloc, files, name)?;
    let file = &mut files[at];
    file.bytes = Some(bytes);
    Ok(())
}

/// Takes a file out, and gives its bytes.
pub fn take_in(files: &mut Vec<File>, name: &[u8]) -> Option<Bytes>
    ensures gives { result ≡ folder_of files.old.items name.now }
    ensures leaves { folder_of files.new.items ≡ removed name.now (folder_of files.old.items) }
    ensures places { (n : List ℕ) (i : ℕ) → IsAt files.old.items i n → IsAt files.new.items i n }
{
    let at = find(files, name)?;
    let file = &mut files[at];
    file.bytes.take()
}

pub fn append_in(
    alloc: Global,
    files: &mut Vec<File>,
    name: &[u8],
    bytes: &[u8],
) -> Result<(), AllocError>
    ensures ok { OnOk result (folder_of files.new.items ≡ appended name.now bytes.now (folder_of files.old.items)) }
    ensures err { OnErr result (folder_of files.new.items ≡ folder_of files.old.items) }
{
    let at = place(alloc, files, name)?;
    files[at].append(alloc, bytes)
}

pub fn set_in(files: &mut Vec<File>, name: &[u8], at: u64, value: u8)
    ensures { folder_of files.new.items ≡ byte_set name.now at value (folder_of files.old.items) }
{
    if let Some(place) = find(files, name) {
        files[place].set(at, value);
    }
}

pub fn cut_in(files: &mut Vec<File>, name: &[u8], len: u64)
    ensures { folder_of files.new.items ≡ cut_to name.now len (folder_of files.old.items) }
{
    if let Some(place) = find(files, name) {
        files[place].cut(len);
    }
}

/// Gives a file another name.
pub fn rename_in(
    alloc: Global,
    files: &mut Vec<File>,
    from: &[u8],
    to: &[u8],
) -> Result<(), AllocError>
    ensures ok { OnOk result (folder_of files.new.items ≡ renamed from.now to.now (folder_of files.old.items)) }
    ensures err { OnErr result (folder_of files.new.items ≡ folder_of files.old.items) }
{
    if from == to {
        return Ok(());
    }
    let there = place(alloc, files, to)?;
    let Some(bytes) = take_in(files, from) else {
        return Ok(());
    };
    let file = &mut files[there];
    file.bytes = Some(bytes);
    Ok(())
}

/// The length of a file in bytes, None where it is absent.
pub fn len_in(files: &[File], name: &[u8]) -> Option<u64>
    ensures { result ≡ option_map length (folder_of files.now name.now) }
{
    let at = find(files, name)?;
    files[at].len()
}

/// The length of a file in bytes, 0 where it is absent.
pub fn size_in(files: &[File], name: &[u8]) -> u64
    ensures { result ≡ file_length name.now (folder_of files.now) }
{
    len_in(files, name).unwrap_or(0)
}

/// Reads a file from `at` on, as many bytes as fit the buffer or are left.
pub fn read_in(files: &[File], name: &[u8], at: u64, buf: &mut [u8]) -> usize
    ensures { ReadsBytes (folder_of files.now name.now) at buf.old buf.new result }
{
    let Some(place) = find(files, name) else {
        return 0;
    };
    files[place].read(at, buf)
}

/// Whether a file is the same in both, or absent in both.
pub fn has_same(files: &[File], others: &[File], name: &[u8]) -> bool
    ensures same { result ≡ true → folder_of files.now name.now ≡ folder_of others.now name.now }
    ensures apart { result ≡ false → folder_of files.now name.now ≢ folder_of others.now name.now }
{
    match (bytes_in(files, name), bytes_in(others, name)) {
        (Some(bytes), Some(other)) => bytes == other,
        (None, None) => true,
        _ => false,
    }
}

/// The bytes of a file, None where it is absent.
pub fn bytes_in<'a>(files: &'a [File], name: &[u8]) -> Option<&'a [u8]>
    ensures { option_map (λ bytes. bytes.now) result ≡ folder_of files.now name.now }
{
    let at = find(files, name)?;
    match &files[at].bytes {
        Some(bytes) => Some(bytes.as_slice()),
        None => None,
    }
}
