//! What a store in memory reboots as.
ghost use Rattle.std.specs.Prelude.{◌≤◌};

use crate::MemStore;
use hx_outside::{Store, StoreError};
use std::alloc::Global;
use std::test::Fail;

// The calls of a history over a new file `a` and a stable file `b`, up to the first that fails.
fn run(store: &mut MemStore) -> Result<(), StoreError> {
    store.append("a", b"xyz")?;
    store.sync("a")?;
    store.set_byte("a", 1, b'Q')?;
    store.cut("a", 2)?;
    store.rename("a", "b")?;
    store.remove("b")
}

fn stopped(alloc: Global, stop: u64) -> Result<MemStore, Fail> {
    let mut store = MemStore::new(alloc);
    store.put("b", b"old")?;
    store.stop_after(stop);
    let done = run(&mut store).is_ok();
    if done == (stop < 6) || store.calls() != 6.min(stop.saturating_add(1)) {
        return Err(Fail::from("the history went on, or stopped before"));
    }
    Ok(store)
}

// What a file is after a crash.
const ABSENT: usize = 0;

const OLD: usize = 1;

const EMPTY: usize = 2;

const X: usize = 3;

const XY: usize = 4;

const XYZ: usize = 5;

const XQ: usize = 6;

const XQZ: usize = 7;
// Others of two bytes that begin with x; of three that begin with x and end with z, that begin with x; up to three.
const TWO: usize = 8;

const ENDS: usize = 9;

const THREE: usize = 10;

const TORN: usize = 11;

const OTHER: usize = 12;

const KNOWN: [(&[u8], usize); 7] = [
    (b"old", OLD),
    (b"", EMPTY),
    (b"x", X),
    (b"xy", XY),
    (b"xyz", XYZ),
    (b"xQ", XQ),
    (b"xQz", XQZ),
];

fn kind_of(file: Option<&[u8]>) -> usize {
    let Some(bytes) = file else {
        return ABSENT;
    };
    for (known, kind) in KNOWN {
        if bytes == known {
            return kind;
        }
    }
    kind_of_others(bytes)
}

fn kind_of_others(bytes: &[u8]) -> usize {
    if bytes.len() > 3 {
        return OTHER;
    }
    if !bytes.starts_with(b"x") {
        return TORN;
    }
    if bytes.len() == 2 {
        return TWO;
    }
    if bytes.ends_with(b"z") {
        return ENDS;
    }
    THREE
}

// Bytes that were appended and never synced: any, as many or fewer.
const APPENDED: &[usize] = &[
    ABSENT, OLD, EMPTY, X, XY, XYZ, XQ, XQZ, TWO, ENDS, THREE, TORN,
];
// Any byte in the middle.
const SET: &[usize] = &[XYZ, XQZ, ENDS];
// The first byte, any byte, and no or any byte past the cut.
const CUT: &[usize] = &[XY, XYZ, XQ, XQZ, TWO, ENDS, THREE];

// What the rules allow of both files after a crash in the call at which the history stopped, or at its end.
const ALLOWED: [(u64, &[usize], &[usize]); 14] = [
    (0, APPENDED, &[OLD]),
    (1, APPENDED, &[OLD]),
    (2, SET, &[OLD]),
    (3, CUT, &[OLD]),
    (4, CUT, &[OLD]),
    (4, &[ABSENT], CUT),
    (5, CUT, &[OLD]),
    (5, CUT, &[ABSENT]),
    (5, &[ABSENT], CUT),
    (5, &[ABSENT], &[ABSENT]),
    (6, CUT, &[OLD]),
    (6, CUT, &[ABSENT]),
    (6, &[ABSENT], CUT),
    (6, &[ABSENT], &[ABSENT]),
];

// What is met by some choice.
const MET: [(u64, usize, usize, &str); 22] = [
    (0, XYZ, OLD, "an append that failed is seen"),
    (0, ABSENT, OLD, "an append that failed is not seen"),
    (1, ABSENT, OLD, "a new file is absent"),
    (1, EMPTY, OLD, "it has no byte"),
    (1, X, OLD, "it has one byte"),
    (1, XY, OLD, "it has two bytes"),
    (1, XYZ, OLD, "it has three bytes"),
    (1, TORN, OLD, "it has other bytes"),
    (2, XYZ, OLD, "a byte is as it was"),
    (2, XQZ, OLD, "a byte is as it was set"),
    (2, ENDS, OLD, "a byte is another"),
    (3, XQ, OLD, "a cut is done"),
    (3, XQZ, OLD, "a cut is not done"),
    (3, THREE, OLD, "another byte is past a cut"),
    (4, XQ, OLD, "a rename that failed is not done"),
    (4, ABSENT, XQ, "a rename that failed is done"),
    (5, XQZ, OLD, "a rename of an unsynced file is not done"),
    (5, XYZ, ABSENT, "nor is it where the other is removed"),
    (5, ABSENT, XQ, "a remove that failed is not done"),
    (5, ABSENT, ABSENT, "a remove that failed is done"),
    (6, ABSENT, XYZ, "a remove of an unsynced file is not done"),
    (6, ABSENT, ABSENT, "a remove of an unsynced file is done"),
];

fn is_allowed(stop: u64, a: usize, b: usize) -> bool {
    for (at, of_a, of_b) in ALLOWED {
        if at == stop && of_a.contains(&a) && of_b.contains(&b) {
            return true;
        }
    }
    false
}

#[test]
fn each_crash_of_a_history(rt: HostRuntime) -> Result<(), Fail> {
    let mut met = [false; 22];
    for stop in 0..7 {
        for choice in 0..64 {
            let store = stopped(rt.alloc(), stop)?.reboot(choice)?;
            let a = kind_of(store.file("a"));
            let b = kind_of(store.file("b"));
            assert!(rt;
                is_allowed(stop, a, b),
                "stop {stop}, choice {choice}: {a}, {b}"
            );
            for (number, (at, of_a, of_b, _)) in MET.into_iter().enumerate() {
                if number < 22 && at == stop && of_a == a && of_b == b {
                    met[number] = true;
                }
            }
        }
    }
    for (was_met, (_, _, _, what)) in met.into_iter().zip(MET) {
        assert!(rt; was_met, "{what}");
    }
    Ok(())
}

fn holds(store: &MemStore, name: &str, bytes: &[u8]) -> bool {
    match store.file(name) {
        Some(file) => file == bytes,
        None => false,
    }
}

#[test]
fn what_is_stable_stays(rt: HostRuntime) -> Result<(), Fail> {
    for choice in 0..64 {
        let mut store = MemStore::new(rt.alloc());
        store.put("old", b"o")?;
        store.append("a", b"ab")?;
        store.sync("a")?;
        store.append("a", b"c")?;
        store.append("b", b"bb")?;
        store.sync("a")?;
        store.sync("b")?;
        store.rename("b", "c")?;
        store.remove("old")?;
        store.append("d", b"dd")?;
        let mut store = store.reboot(choice)?;
        assert!(rt; holds(&store, "a", b"abc"));
        assert!(rt; holds(&store, "c", b"bb"));
        assert!(rt; store.file("b").is_none());
        assert!(rt; store.file("old").is_none());

        // What it reboots as is stable.
        let left = store.len("d");
        let mut store = store.reboot(choice.wrapping_add(21))?;
        assert!(rt; holds(&store, "a", b"abc"));
        assert_eq!(rt; store.len("d"), left);
    }
    Ok(())
}

// The number of an image of one byte that was appended to a new file, and renamed: where it is, and its byte, if any.
fn number_of(a: Option<&[u8]>, b: Option<&[u8]>) -> usize {
    match (a, b) {
        (Some(a), None) => number_in(a),
        (None, Some(b)) => 257 + number_in(b),
        (None, None) => 514,
        _ => 515,
    }
}

fn number_in(file: &[u8]) -> usize
    ensures { result ≤ 256 }
{
    match file.first() {
        Some(byte) => 1 + *byte as usize,
        None => 0,
    }
}

#[test]
fn each_image_is_met_by_a_choice(rt: HostRuntime) -> Result<(), Fail> {
    let mut met = [false; 516];
    for choice in 0..4200 {
        let mut store = MemStore::new(rt.alloc());
        store.append("a", b"x")?;
        store.rename("a", "b")?;
        let store = store.reboot(choice)?;
        let number = number_of(store.file("a"), store.file("b"));
        if number < 516 {
            met[number] = true;
        }
    }
    for (image, was_met) in met.into_iter().enumerate() {
        assert!(rt; was_met == (image < 515), "image {image}");
    }
    Ok(())
}
