//! Page headers and footers: their bytes as they are counted by hand, and what is read of them.
ghost use Rattle.std.specs.Prelude.{IfOk};
ghost use Rattle.hx_pqmeta.specs.Writing.{IsColumnLeaf};

use super::*;
use crate::{Chunk, Footer, Group, Leaf, PageHead, read_footer, read_page_header};
use std::alloc::{AllocError, Global};
use std::process::Abort;
use std::test::Fail;

// The two sizes, the number of values and the encodings of values and levels, and the header's bytes.
const HEADERS: [([i32; 5], &[u8]); 4] = [
    (
        [14, 14, 1, 0, 3],
        b"\x15\x00\x15\x1c\x15\x1c\x2c\x15\x02\x15\x00\x15\x06\x15\x06\x00\x00",
    ),
    (
        [0, 0, 0, 0, 0],
        b"\x15\x00\x15\x00\x15\x00\x2c\x15\x00\x15\x00\x15\x00\x15\x06\x00\x00",
    ),
    (
        [524_288, 524_288, 65_536, 0, 3],
        b"\x15\x00\x15\x80\x80\x40\x15\x80\x80\x40\x2c\x15\x80\x80\x08\x15\x00\x15\x06\x15\x06\x00\x00",
    ),
    // The ends of an i32.
    (
        [2_147_483_647, -2_147_483_648, -1, 64, -64],
        b"\x15\x00\x15\xfe\xff\xff\xff\x0f\x15\xff\xff\xff\xff\x0f\x2c\x15\x01\x15\x80\x01\x15\x7f\x15\x06\x00\x00",
    ),
];

#[test]
fn page_headers(rt: HostRuntime) -> Result<(), Fail> {
    for ([plain_size, stored_size, values, encoding, levels], bytes) in HEADERS {
        let head = PageHead {
            kind: 0,
            plain_size,
            stored_size,
            values,
            encoding,
            levels: Some(levels),
            next: 0,
        };
        let header = write_page_header(rt.alloc(), &head)?;
        assert_eq!(rt; header.as_slice(), bytes);
        let next = bytes.len() as u64;
        assert_eq!(rt; read_page_header(bytes, 0), Ok(PageHead { next, ..head }));
    }
    Ok(())
}

// The leaf `id` of INT32.
fn leaf(alloc: Global) -> Result<Leaf, AllocError>
    ensures { IfOk result IsColumnLeaf }
{
    let name = b"id".to_vec(alloc)?;
    Ok(Leaf::new(Some(1), 0, name, None))
}

// What each footer begins with, and ends with before its length.
const FRONT: &[u8] = b"\x15\x02\x19\x2c\x48\x06schema\x15\x02\x00\x15\x02\x25\x00\x18\x02id\x00";

const BACK: &[u8] = b"\x28\x0ehats profile 1\x00";

// The bytes are these parts, one after another.
fn check(rt: &impl Abort, bytes: &[u8], parts: &[&[u8]]) {
    let mut rest = bytes;
    for part in parts {
        assert!(rt; rest.starts_with(part), "{} bytes from the end", rest.len());
        rest = rest.get(part.len()..).unwrap_or(&[]);
    }
    assert_eq!(rt; rest.len(), 0);
}

// What is read behind a mark and 31 bytes.
fn read_behind(rt: &impl Abort, alloc: Global, tail: &[u8]) -> Result<Footer, AllocError> {
    let mut file = b"PAR1...............................".to_vec(alloc)?;
    file.extend_from_slice(tail)?;
    match read_footer(alloc, &file) {
        Ok(footer) => Ok(footer),
        Err(refusal) => panic!(rt; "{refusal:?}"),
    }
}

#[test]
fn no_rows(rt: HostRuntime) -> Result<(), Fail> {
    let alloc = rt.alloc();
    let mut leaves = Vec::new(alloc);
    leaves.push(leaf(alloc)?)?;
    let footer = Footer::new(35, 0, leaves, Vec::new(alloc));
    let tail = write_footer(alloc, &footer)?;
    check(
        &rt,
        &tail,
        &[FRONT, b"\x16\x00\x19\x0c", BACK, b"\x2d\x00\x00\x00PAR1"],
    );
    let read = read_behind(&rt, alloc, &tail)?;
    assert_eq!(rt; (read.start(), read.rows()), (35, 0));
    assert_eq!(rt; (read.leaves().len(), read.groups().len()), (1, 0));
    Ok(())
}

// Five values in 31 bytes from the place 4.
const CHUNK: Chunk = Chunk {
    has_path: false,
    has_meta: true,
    codec: Some(0),
    values: Some(5),
    plain_size: Some(31),
    stored_size: Some(33),
    data_page: Some(4),
    dictionary_page: None,
};

#[test]
fn one_group(rt: HostRuntime) -> Result<(), Fail> {
    let alloc = rt.alloc();
    let mut leaves = Vec::new(alloc);
    leaves.push(leaf(alloc)?)?;
    let mut chunks = Vec::new(alloc);
    chunks.push(CHUNK)?;
    let mut groups = Vec::new(alloc);
    groups.push(Group::new(5, chunks))?;
    let footer = Footer::new(35, 5, leaves, groups);
    let tail = write_footer(alloc, &footer)?;
    check(
        &rt,
        &tail,
        &[
            FRONT,
            b"\x16\x0a\x19\x1c\x19\x1c",
            b"\x26\x08\x1c\x15\x02\x19\x25\x00\x06\x19\x18\x02id",
            b"\x15\x00\x16\x0a\x16\x3e\x16\x42\x26\x08\x00\x00",
            b"\x16\x3e\x16\x0a\x00",
            BACK,
            b"\x4e\x00\x00\x00PAR1",
        ],
    );
    let read = read_behind(&rt, alloc, &tail)?;
    assert_eq!(rt; (read.start(), read.rows()), (35, 5));
    let ([leaf], [group]) = (read.leaves(), read.groups()) else {
        panic!(rt; "leaves or groups");
    };
    assert_eq!(rt;
        (leaf.kind(), leaf.repetition(), leaf.children()),
        (Some(1), 0, None)
    );
    assert_eq!(rt; leaf.name(), b"id".as_slice());
    assert_eq!(rt; group.rows(), 5);
    assert_eq!(rt; group.chunks(), [CHUNK].as_slice());
    Ok(())
}
