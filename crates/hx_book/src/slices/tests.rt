//! Parts of split files, read alone out of a store in memory.
use super::{SliceError, read_alone};
use hx_base::{Row, SpillRefusal};
use hx_mem::MemStore;
use hx_outside::StoreError;
use std::alloc::{AllocError, Global};
use std::test::Fail;

// A number of some bytes in a file.
type Number = (usize, u64);

// The head of two parts, 2 with one row and 5 with two, and then these rows: hp, id, x, y and z each.
const NUMBERS: [Number; 22] = [
    (8, 2),
    (4, 2),
    (8, 0),
    (8, 1),
    (4, 5),
    (8, 1),
    (8, 2),
    (8, 40),
    (8, 1),
    (4, 1_000_000_000),
    (4, 0),
    (4, 0),
    (8, 50),
    (8, 2),
    (4, 0),
    (4, 1_000_000_000),
    (4, 0),
    (8, 60),
    (8, 3),
    (4, 0),
    (4, 0),
    (4, 1_000_000_000),
];

// Where the one row of part 2 stands, and the first of part 5.
const ROW_OF_2: u64 = 52;

const ROW_OF_5: u64 = 80;

// The numbers as a file's bytes, the lowest byte of each first.
fn split_file(alloc: Global, numbers: &[Number]) -> Result<Vec<u8>, AllocError> {
    let mut bytes = Vec::from_slice(alloc, b"HXS1")?;
    for &(width, number) in numbers {
        let text = number.to_le_bytes();
        for i in 0..width.min(8) {
            bytes.push(text[i])?;
        }
    }
    Ok(bytes)
}

// A store with the file, where one number is another.
fn store_with(alloc: Global, index: usize, number: u64) -> Result<MemStore, Fail> {
    let mut numbers = NUMBERS;
    if index < numbers.len() {
        numbers[index].1 = number;
    }
    let mut store = MemStore::new(alloc);
    store.put("split", &split_file(alloc, &numbers)?)?;
    Ok(store)
}

fn are_rows(found: &Result<Vec<Row>, SliceError>, rows: &[Row]) -> bool {
    match found {
        Ok(found) => found.as_slice() == rows,
        Err(_) => false,
    }
}

fn is_refused(found: &Result<Vec<Row>, SliceError>, error: SliceError) -> bool {
    match found {
        Ok(_) => false,
        Err(refused) => *refused == error,
    }
}

const fn damaged(place: u64) -> SliceError {
    SliceError::Spill(SpillRefusal::Damaged { place })
}

const fn row(hp: u64, id: i64, x: i32, y: i32, z: i32) -> Row {
    Row { hp, id, x, y, z }
}

#[test]
fn each_part_is_read_alone(rt: HostRuntime) -> Result<(), Fail> {
    let alloc = rt.alloc();
    let mut store = store_with(alloc, NUMBERS.len(), 0)?;
    let found = read_alone(alloc, &mut store, "split", 2);
    assert!(rt; are_rows(&found, &[row(40, 1, 1_000_000_000, 0, 0)]));
    let found = read_alone(alloc, &mut store, "split", 5);
    assert!(rt;
        are_rows(
            &found,
            &[
                row(50, 2, 0, 1_000_000_000, 0),
                row(60, 3, 0, 0, 1_000_000_000)
            ]
        )
    );
    let found = read_alone(alloc, &mut store, "split", 3);
    assert!(rt; are_rows(&found, &[]));
    Ok(())
}

// The row of part 2 isn't good: so much of the file is damaged only for a reader of this part.
#[test]
fn a_damage_is_told_where_it_is_read(rt: HostRuntime) -> Result<(), Fail> {
    let alloc = rt.alloc();
    let mut store = store_with(alloc, 9, 7)?;
    let found = read_alone(alloc, &mut store, "split", 2);
    assert!(rt; is_refused(&found, damaged(ROW_OF_2)));
    let found = read_alone(alloc, &mut store, "split", 5);
    assert!(rt;
        are_rows(
            &found,
            &[
                row(50, 2, 0, 1_000_000_000, 0),
                row(60, 3, 0, 0, 1_000_000_000)
            ]
        )
    );
    let mut store = store_with(alloc, 13, 0)?;
    let found = read_alone(alloc, &mut store, "split", 5);
    assert!(rt;
        are_rows(
            &found,
            &[
                row(50, 0, 0, 1_000_000_000, 0),
                row(60, 3, 0, 0, 1_000_000_000)
            ]
        )
    );
    let mut store = store_with(alloc, 12, 70)?;
    let found = read_alone(alloc, &mut store, "split", 5);
    assert!(rt; is_refused(&found, damaged(ROW_OF_5 + 28)));
    Ok(())
}

#[test]
fn an_absent_file_and_a_fault_are_told(rt: HostRuntime) -> Result<(), Fail> {
    let alloc = rt.alloc();
    let mut store = store_with(alloc, NUMBERS.len(), 0)?;
    let found = read_alone(alloc, &mut store, "other", 2);
    assert!(rt; is_refused(&found, damaged(0)));
    for call in 0..4 {
        let mut store = store_with(alloc, NUMBERS.len(), 0)?;
        store.fail_calls(&[call])?;
        let found = read_alone(alloc, &mut store, "split", 2);
        assert!(rt;
            is_refused(&found, SliceError::Store(StoreError::Failed)),
            "call {call}"
        );
    }
    Ok(())
}

// A split file of so many parts, with one row each.
fn long_file(alloc: Global, parts: u32) -> Result<Vec<u8>, AllocError> {
    let mut numbers = Vec::new(alloc);
    numbers.push((8, u64::from(parts)))?;
    for part in 0..parts {
        numbers.push((4, u64::from(part)))?;
        numbers.push((8, u64::from(part)))?;
        numbers.push((8, 1))?;
    }
    for part in 0..parts {
        numbers.push((8, u64::from(part)))?;
        numbers.push((8, 7))?;
        numbers.push((4, 1_000_000_000))?;
        numbers.push((4, 0))?;
        numbers.push((4, 0))?;
    }
    split_file(alloc, &numbers)
}

// The longest head that is among the bytes read at first, and longer ones. A part that isn't there takes two calls or four.
#[test]
fn long_heads_are_read_whole(rt: HostRuntime) -> Result<(), Fail> {
    let alloc = rt.alloc();
    for (parts, wanted) in [(50, 2), (51, 4), (300, 4)] {
        let mut store = MemStore::new(alloc);
        store.put("split", &long_file(alloc, parts)?)?;
        for part in [0, 1, 49] {
            let found = read_alone(alloc, &mut store, "split", part);
            let alone = row(u64::from(part), 7, 1_000_000_000, 0, 0);
            assert!(rt; are_rows(&found, &[alone]), "part {part} of {parts}");
        }
        let before = store.calls();
        let found = read_alone(alloc, &mut store, "split", parts);
        assert!(rt; are_rows(&found, &[]));
        let calls = store.calls().saturating_sub(before);
        assert_eq!(rt; calls, wanted, "{parts} parts");
    }
    Ok(())
}
