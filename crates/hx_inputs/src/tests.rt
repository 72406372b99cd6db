//! Inputs over sources in memory.
mod blank;

use crate::{check_inputs, read_all, read_input};
use blank::{blank_of, blanks};
use hx_base::{Refusal, is_csv_name};
use hx_mem::MemSource;
use hx_outside::Source;
use std::alloc::Global;
use std::test::Fail;

const FAULT: Refusal = Refusal::InputFault { input: 7 };

const NO_HEADER: Refusal = Refusal::BadInput {
    input: 7,
    row: 0,
    why: 1,
};

const BAD_ID: Refusal = Refusal::BadInput {
    input: 7,
    row: 2,
    why: 4,
};

const TOO_MANY: Refusal = Refusal::TooMany {
    what: 1,
    found: 10_001,
    limit: 10_000,
};

fn too_long(found: u64) -> Refusal {
    Refusal::TooMany {
        what: 2,
        found,
        limit: 67_108_864,
    }
}

// How many bytes an input gives.
fn bytes<Src: Source>(alloc: Global, source: &mut Src) -> Result<usize, Refusal> {
    Ok(read_all(alloc, source, 7)?.len())
}

// How many rows an input gives whose name is a CSV file's.
fn rows<Src: Source>(alloc: Global, source: &mut Src) -> Result<usize, Refusal> {
    if !is_csv_name(source.name()) {
        return Err(Refusal::Usage);
    }
    Ok(read_input(alloc, source, 7)?.len())
}

// What the check of so many inputs with these lengths answers, and how often they were read.
fn checked(
    alloc: Global,
    count: usize,
    lengths: &[Option<u64>],
) -> Result<(Option<Refusal>, u64), Refusal> {
    let mut inputs = blanks(alloc, count, lengths)?;
    let answer = check_inputs(&mut inputs).err();
    let mut reads: u64 = 0;
    for input in &inputs {
        reads = reads.saturating_add(input.reads);
    }
    Ok((answer, reads))
}

#[test]
fn limits_of_inputs(rt: HostRuntime) {
    let cases: [(usize, &[Option<u64>], Option<Refusal>); 8] = [
        (1, &[Some(67_108_864)], None),
        (1, &[Some(67_108_865)], Some(too_long(67_108_865))),
        (
            3,
            &[Some(0), Some(80_000_000), Some(90_000_000)],
            Some(too_long(80_000_000)),
        ),
        (10_001, &[Some(90_000_000)], Some(TOO_MANY)),
        (10_000, &[Some(90_000_000)], Some(too_long(90_000_000))),
        // One that is too long and one whose length can't be told, both ways about, and too many.
        (8, &[Some(80_000_000), None], Some(too_long(80_000_000))),
        (
            8,
            &[None, Some(80_000_000)],
            Some(Refusal::InputFault { input: 0 }),
        ),
        (10_001, &[None, Some(90_000_000)], Some(TOO_MANY)),
    ];
    for (count, lengths, refusal) in cases {
        assert_eq!(rt;
            checked(rt.alloc(), count, lengths),
            Ok((refusal, 0)),
            "{count}"
        );
    }
}

// A source that is short enough is read, and found to have no header.
#[test]
fn source_without_bytes(rt: HostRuntime) -> Result<(), Fail> {
    for input in &mut blanks(rt.alloc(), 1, &[Some(67_108_864)])? {
        assert_eq!(rt; rows(rt.alloc(), input), Err(NO_HEADER));
        assert_eq!(rt; input.reads, 1);
    }
    Ok(())
}

// A source that tells nothing of its bytes and ends before its length: those that it gave are kept.
#[test]
fn bytes_before_an_early_end(rt: HostRuntime) -> Result<(), Fail> {
    for held in [0, 1, 12, 16_384, 16_385, 70_000] {
        let mut source = blank_of(rt.alloc(), Some(200_000), held)?;
        let bytes = read_all(rt.alloc(), &mut source, 7)?;
        assert_eq!(rt; bytes.len() as u64, held);
        assert!(rt; bytes.iter().all(|byte| *byte == b'x'), "{held}");
    }
    Ok(())
}

#[test]
fn bytes_in_pieces(rt: HostRuntime) -> Result<(), Fail> {
    let alloc = rt.alloc();
    let mut source = MemSource::new(alloc, "a.csv", &vec![in alloc; b'x'; 20_000]?)?;
    // The length and two reads: each of them fails once.
    source.fail_calls(&[3, 5, 8])?;
    for answer in [Ok(20_000), Err(FAULT), Err(FAULT), Err(FAULT), Ok(20_000)] {
        assert_eq!(rt; bytes(alloc, &mut source), answer);
    }
    Ok(())
}

#[test]
fn rows_of_inputs(rt: HostRuntime) -> Result<(), Fail> {
    let cases: [(&[u8], Result<usize, Refusal>); 2] = [
        (b"id,_healpix_29,cx,cy,cz\n7,5,1000000000,0,0\n", Ok(1)),
        (
            b"id,_healpix_29,cx,cy,cz\n7,5,1000000000,0,0\nx,5,1000000000,0,0\n",
            Err(BAD_ID),
        ),
    ];
    for (bytes, answer) in cases {
        let mut source = MemSource::new(rt.alloc(), "a.csv", bytes)?;
        assert_eq!(rt; rows(rt.alloc(), &mut source), answer);
    }
    Ok(())
}
