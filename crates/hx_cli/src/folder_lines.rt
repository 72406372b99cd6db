//! The lines of the commands that use a folder. The room of a line is taken before the work, so that no want of memory
//! comes behind it.
ghost use Rattle.std.specs.Prelude.{◌≡◌, ◌≤◌, ◌+◌, ◌++◌, ◌∷◌, [], IfOk, length, vec_capacity, vec_len};
ghost use Rattle.std.specs.Fmt.{decimal};
ghost use Rattle.hx_cli.specs.FolderTexts.{clean_line, import_line, matched_line};

use itoa::Buffer;
use std::alloc::{AllocError, Global};

// The longest line: names of at most 32 bytes, numbers of at most 40, and the words between.
const LONGEST: usize = 192;

/// Room for a line.
pub fn room_for_line(alloc: Global) -> Result<Vec<u8>, AllocError>
    ensures empty { IfOk result (λ line. line.items ≡ []) }
    ensures wide { IfOk result (λ line. 192 ≤ vec_capacity line) }
{
    Vec::with_capacity(alloc, LONGEST)
}

// Adds bytes for which there is room.
fn push(line: &mut Vec<u8>, bytes: &[u8])
    requires { vec_len line.old + length bytes.now ≤ vec_capacity line.old }
    ensures items { line.new.items ≡ line.old.items ++ bytes.now }
    ensures len { vec_len line.new ≡ vec_len line.old + length bytes.now }
    ensures capacity { vec_capacity line.old ≤ vec_capacity line.new }
{
    match line.extend_from_slice(bytes) {
        Ok(()) => {}
        Err(_) => unreachable!(),
    }
}

// Adds a number, for which there is room.
fn push_number(line: &mut Vec<u8>, number: u64)
    requires { vec_len line.old + 40 ≤ vec_capacity line.old }
    ensures items { line.new.items ≡ line.old.items ++ decimal number }
    ensures len { vec_len line.new ≤ vec_len line.old + 40 }
    ensures capacity { vec_capacity line.old ≤ vec_capacity line.new }
{
    let mut buffer = Buffer::new();
    push(line, buffer.format(number).as_bytes());
}

/// The line of an import: its name, how many rows and partitions it has, and how many rows its margins have.
pub fn import_line(
    mut line: Vec<u8>,
    name: &str,
    rows: u64,
    partitions: u32,
    margin: u64,
) -> Vec<u8>
    requires empty { line.items ≡ [] }
    requires wide { 192 ≤ vec_capacity line }
    requires name { length name.now ≤ 32 }
    ensures { result.items ≡ import_line name.now rows partitions margin }
{
    push(&mut line, name.as_bytes());
    push(&mut line, b" rows ");
    push_number(&mut line, rows);
    push(&mut line, b" partitions ");
    push_number(&mut line, u64::from(partitions));
    push(&mut line, b" margin ");
    push_number(&mut line, margin);
    push(&mut line, b"\n");
    line
}

/// The line of a cleaning.
pub fn clean_line(mut line: Vec<u8>, name: &str) -> Vec<u8>
    requires empty { line.items ≡ [] }
    requires wide { 192 ≤ vec_capacity line }
    requires name { length name.now ≤ 32 }
    ensures { result.items ≡ clean_line name.now }
{
    push(&mut line, name.as_bytes());
    push(&mut line, b" clean\n");
    line
}

/// The line of a match: both names, how many left rows there are, and how many of them have a match.
pub fn matched_line(mut line: Vec<u8>, left: &str, right: &str, rows: u64, matched: u64) -> Vec<u8>
    requires empty { line.items ≡ [] }
    requires wide { 192 ≤ vec_capacity line }
    requires left { length left.now ≤ 32 }
    requires right { length right.now ≤ 32 }
    ensures { result.items ≡ matched_line left.now right.now rows matched }
{
    push(&mut line, left.as_bytes());
    push(&mut line, b" ");
    push(&mut line, right.as_bytes());
    push(&mut line, b" rows ");
    push_number(&mut line, rows);
    push(&mut line, b" matched ");
    push_number(&mut line, matched);
    push(&mut line, b"\n");
    line
}
