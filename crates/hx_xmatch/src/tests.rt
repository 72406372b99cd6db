//! Matches of catalogues in a store in memory.
use crate::{Matched, Query, match_one};
use hx_base::{JobFile, Name, Pixel, Refusal, Row, Settings, job_path, sort_rows};
use hx_catalog::{Properties, list_text, properties_text};
use hx_mem::MemStore;
use hx_nest::{at_order, neighbours};
use hx_pqwrite::write;
use std::alloc::Global;
use std::process::Abort;
use std::test::Fail;

const HEADER: &str = "id,_healpix_29,match_id,match_healpix_29,chord2\n";

const OUTPUT: &str = "m.csv";

// A row at a position, with the vector (1, 0, 0).
fn at(id: i64, hp: u64) -> Row {
    Row {
        hp,
        id,
        x: 1_000_000_000,
        y: 0,
        z: 0,
    }
}

// The same on the other side of the sky.
fn across(id: i64, hp: u64) -> Row {
    Row {
        x: -1_000_000_000,
        ..at(id, hp)
    }
}

// The rows in the pixels 3, 7 and 4 of order 1, of which the first touches each of the others.
const A: u64 = 216_172_782_113_783_808;

const B: u64 = 504_403_158_265_495_552;

const C: u64 = 288_230_376_151_711_744;

// Rows, the orders and numbers of their partitions, and the order of the margins.
#[derive(Clone, Copy)]
struct Sky<'a> {
    parts: &'a [(u8, u64)],
    margin_order: u8,
    rows: &'a [Row],
}

fn name_of(alloc: Global, text: &str) -> Result<Name, Fail> {
    Ok(Name::new(alloc, text)?.ok_or("no name")?)
}

// Whether a row belongs to a partition's margin.
fn is_beside(row: &Row, part: Pixel, margin_order: u8) -> bool {
    if part.holds(row.hp) || !row.is_good() || margin_order > 29 {
        return false;
    }
    let steps = 2 * u32::from(margin_order.saturating_sub(part.order));
    let around = neighbours(margin_order, at_order(row.hp, margin_order));
    for i in 0..around.count() {
        if around.get(i).checked_shr(steps) == Some(part.number) {
            return true;
        }
    }
    false
}

// The rows of a partition, or of its margin.
fn rows_of(alloc: Global, sky: &Sky, part: Pixel, margin: bool) -> Result<Vec<Row>, Fail> {
    let mut rows = Vec::new(alloc);
    for row in sky.rows {
        let belongs = if margin {
            is_beside(row, part, sky.margin_order)
        } else {
            part.holds(row.hp)
        };
        if belongs {
            rows.push(*row)?;
        }
    }
    sort_rows(rows.as_mut_slice());
    Ok(rows)
}

fn put_rows(
    alloc: Global,
    store: &mut MemStore,
    name: &Name,
    sky: &Sky,
    part: Pixel,
    margin: bool,
) -> Result<u64, Fail> {
    let rows = rows_of(alloc, sky, part, margin)?;
    let fit = rows.iter().all(|row| row.hp < 1 << 63);
    if !fit {
        return Err(Fail::from("a row doesn't fit"));
    }
    let file = if margin {
        JobFile::Margin(0)
    } else {
        JobFile::Part(0)
    };
    let path = job_path(alloc, name, file, part)?;
    store.put(path.as_str(), &write(alloc, &rows)?)?;
    Ok(rows.len() as u64)
}

fn put_properties(
    alloc: Global,
    store: &mut MemStore,
    name: &Name,
    sky: &Sky,
    margin: bool,
    rows: u64,
) -> Result<(), Fail> {
    let highest = sky.parts.iter().map(|part| part.0).max().unwrap_or(0);
    let of = Properties {
        settings: Settings {
            name: name.copy()?,
            lowest: 0,
            highest,
            threshold: 1_000_000,
            margin_order: sky.margin_order,
        },
        margin,
        rows,
        partitions: u32::try_from(sky.parts.len()).unwrap_or(u32::MAX),
    };
    let file = if margin {
        JobFile::MarginProperties
    } else {
        JobFile::Properties
    };
    let none = Pixel {
        order: 0,
        number: 0,
    };
    let path = job_path(alloc, name, file, none)?;
    store.put(path.as_str(), &properties_text(alloc, &of)?)?;
    Ok(())
}

// Puts a finished catalogue into a store.
fn put(alloc: Global, store: &mut MemStore, text: &str, sky: &Sky) -> Result<(), Fail> {
    let name = name_of(alloc, text)?;
    let mut parts = Vec::new(alloc);
    let mut own: u64 = 0;
    let mut beside: u64 = 0;
    for (order, number) in sky.parts {
        let part = Pixel {
            order: *order,
            number: *number,
        };
        parts.push(part)?;
        own = own.wrapping_add(put_rows(alloc, store, &name, sky, part, false)?);
        beside = beside.wrapping_add(put_rows(alloc, store, &name, sky, part, true)?);
    }
    let list = list_text(alloc, &parts)?;
    let none = Pixel {
        order: 0,
        number: 0,
    };
    for file in [JobFile::List, JobFile::MarginList] {
        let path = job_path(alloc, &name, file, none)?;
        store.put(path.as_str(), &list)?;
    }
    put_properties(alloc, store, &name, sky, false, own)?;
    put_properties(alloc, store, &name, sky, true, beside)
}

// A store with the catalogues `l` and `r`.
fn store_with(alloc: Global, left: &Sky, right: &Sky) -> Result<MemStore, Fail> {
    let mut store = MemStore::new(alloc);
    put(alloc, &mut store, "l", left)?;
    put(alloc, &mut store, "r", right)?;
    Ok(store)
}

// The match of two catalogues, into `m.csv`.
fn matched(
    alloc: Global,
    store: MemStore,
    left: &str,
    right: &str,
    radius: u64,
) -> Result<Matched<MemStore>, Fail> {
    if radius > 2_000_000_000 {
        return Err(Fail::from("the radius is too large"));
    }
    let query = Query {
        left: name_of(alloc, left)?,
        right: name_of(alloc, right)?,
        radius,
        output: name_of(alloc, "m")?,
    };
    Ok(match_one(alloc, query, store))
}

// Whether the output has the header and these lines.
fn has_lines(alloc: Global, store: &MemStore, lines: &str) -> Result<bool, Fail> {
    let mut text = String::from_str(alloc, HEADER)?;
    text.push_str(lines)?;
    Ok(match store.file(OUTPUT) {
        Some(file) => file == text.as_str().as_bytes(),
        None => false,
    })
}

fn check_match(
    rt: &impl Abort,
    alloc: Global,
    left: &Sky,
    right: &Sky,
    radius: u64,
    lines: &str,
    numbers: (u64, u64),
) -> Result<(), Fail> {
    let store = store_with(alloc, left, right)?;
    let found = matched(alloc, store, "l", "r", radius)?;
    assert_eq!(rt; found.refusal, None, "{lines}");
    assert!(rt; has_lines(alloc, &found.store, lines)?, "{lines}");
    assert_eq!(rt; (found.rows, found.matched), numbers, "{lines}");
    Ok(())
}

const BASE: &[(u8, u64)] = &[(0, 0)];

fn base(rows: &[Row]) -> Sky<'_> {
    Sky {
        parts: BASE,
        margin_order: 1,
        rows,
    }
}

#[test]
fn matches_within_a_partition(rt: HostRuntime) -> Result<(), Fail> {
    let alloc = rt.alloc();
    let cases = [
        ([at(9, 0), at(4, 0)], 0, "1,0,4,0,0\n", 1),
        ([at(4, 5), at(4, 3)], 0, "1,0,4,3,0\n", 1),
        ([at(9, 3), at(4, 5)], 0, "1,0,4,5,0\n", 1),
        (
            [across(2, 5), across(3, 5)],
            2_000_000_000,
            "1,0,2,5,4000000000000000000\n",
            1,
        ),
        ([across(2, 5), across(3, 5)], 1_999_999_999, "1,0,,,\n", 0),
    ];
    for (rows, radius, lines, count) in cases {
        let left = [at(1, 0)];
        check_match(
            &rt,
            alloc,
            &base(&left),
            &base(&rows),
            radius,
            lines,
            (1, count),
        )?;
    }
    Ok(())
}

#[test]
fn a_left_row_is_written_as_often_as_it_stands(rt: HostRuntime) -> Result<(), Fail> {
    let alloc = rt.alloc();
    let left = [at(1, 0), at(1, 0), at(-2, 0)];
    let right = [at(4, 0)];
    let lines = "-2,0,4,0,0\n1,0,4,0,0\n1,0,4,0,0\n";
    check_match(&rt, alloc, &base(&left), &base(&right), 0, lines, (3, 3))
}

#[test]
fn no_right_rows(rt: HostRuntime) -> Result<(), Fail> {
    let left = [at(7, 0)];
    let right = Sky {
        parts: &[],
        margin_order: 10,
        rows: &[],
    };
    check_match(&rt, rt.alloc(), &base(&left), &right, 5, "7,0,,,\n", (1, 0))
}

// The left row is in no right partition, and its pixel meets the right row's at the pole alone.
#[test]
fn a_left_row_in_no_right_partition(rt: HostRuntime) -> Result<(), Fail> {
    let left = [at(1, A)];
    let right = [at(2, 792_633_534_417_207_296)];
    let sky = Sky {
        parts: &[(0, 2)],
        margin_order: 1,
        rows: &right,
    };
    let lines = "1,216172782113783808,2,792633534417207296,0\n";
    check_match(&rt, rt.alloc(), &base(&left), &sky, 5, lines, (1, 1))
}

// The nearest row is in the margin.
#[test]
fn a_catalogue_with_itself(rt: HostRuntime) -> Result<(), Fail> {
    let alloc = rt.alloc();
    let rows = [at(1, A), at(2, B)];
    let sky = Sky {
        parts: &[(0, 0), (0, 1)],
        margin_order: 1,
        rows: &rows,
    };
    let mut store = MemStore::new(alloc);
    put(alloc, &mut store, "t", &sky)?;
    let found = matched(alloc, store, "t", "t", 0)?;
    assert_eq!(&rt; found.refusal, None);
    let lines =
        "1,216172782113783808,1,216172782113783808,0\n2,504403158265495552,1,216172782113783808,0\n";
    assert!(&rt; has_lines(alloc, &found.store, lines)?);
    assert_eq!(&rt; (found.rows, found.matched), (2, 2));
    Ok(())
}

// Left partitions that are finer than the pixels of the coverage test.
#[test]
fn fine_left_partitions(rt: HostRuntime) -> Result<(), Fail> {
    let left = [
        at(1, 0),
        at(2, 4_503_599_627_370_496),
        at(3, 1_125_899_906_842_624),
    ];
    let sky = Sky {
        parts: &[(4, 0), (4, 1), (3, 1)],
        margin_order: 5,
        rows: &left,
    };
    let right = [at(9, 0)];
    let lines = "1,0,9,0,0\n3,1125899906842624,9,0,0\n2,4503599627370496,9,0,0\n";
    check_match(&rt, rt.alloc(), &sky, &base(&right), 0, lines, (3, 3))
}

fn check_refusal(
    rt: &impl Abort,
    alloc: Global,
    mut store: MemStore,
    radius: u64,
    refusal: Refusal,
) -> Result<(), Fail> {
    store.put(OUTPUT, b"as before")?;
    let found = matched(alloc, store, "l", "r", radius)?;
    assert_eq!(rt; found.refusal, Some(refusal));
    assert_eq!(rt; (found.rows, found.matched), (0, 0));
    assert_eq!(rt; found.store.file(OUTPUT), Some(b"as before".as_slice()));
    Ok(())
}

#[test]
fn margins_that_are_too_narrow(rt: HostRuntime) -> Result<(), Fail> {
    let alloc = rt.alloc();
    let left = [at(1, 0)];
    let right = [at(2, 2_882_303_761_517_117_440)];
    let sky = Sky {
        parts: &[(0, 10)],
        margin_order: 1,
        rows: &right,
    };
    let refusal = Refusal::TooNarrow {
        left: 0,
        right: 640,
        gap2: 0,
    };
    check_refusal(
        &rt,
        alloc,
        store_with(alloc, &base(&left), &sky)?,
        10,
        refusal,
    )?;
    let rows = [at(1, A), at(2, B), at(3, C)];
    let both = Sky {
        parts: &[(0, 0), (0, 1)],
        margin_order: 1,
        rows: &rows,
    };
    let refusal = Refusal::TooNarrow {
        left: 48,
        right: 64,
        gap2: 0,
    };
    check_refusal(&rt, alloc, store_with(alloc, &both, &both)?, 0, refusal)
}

#[test]
fn absent_and_damaged_catalogues(rt: HostRuntime) -> Result<(), Fail> {
    let alloc = rt.alloc();
    let rows = [at(1, 0)];
    let sky = base(&rows);
    let store = MemStore::new(alloc);
    check_refusal(&rt, alloc, store, 5, Refusal::NoCatalogue { side: 1 })?;
    let mut store = MemStore::new(alloc);
    put(alloc, &mut store, "l", &sky)?;
    check_refusal(&rt, alloc, store, 5, Refusal::NoCatalogue { side: 2 })?;
    let cases = [
        ("l/dataset/Norder=0/Dir=0/Npix=0.parquet", 1),
        ("r/dataset/Norder=0/Dir=0/Npix=0.parquet", 2),
    ];
    for (path, side) in cases {
        let mut store = store_with(alloc, &sky, &sky)?;
        store.put(path, b"PAR1")?;
        let file = JobFile::Part(0);
        check_refusal(
            &rt,
            alloc,
            store,
            5,
            Refusal::Damaged {
                side,
                file,
                place: 0,
            },
        )?;
    }
    Ok(())
}

// The coverage test reads both right partitions, the search the first alone.
#[test]
fn the_search_reads_what_it_needs(rt: HostRuntime) -> Result<(), Fail> {
    let alloc = rt.alloc();
    let left = [at(1, 0)];
    let rows = [at(4, 0), across(9, 1_729_382_256_910_270_464)];
    let right = Sky {
        parts: &[(0, 0), (0, 6)],
        margin_order: 1,
        rows: &rows,
    };
    let store = store_with(alloc, &base(&left), &right)?;
    let found = matched(alloc, store, "l", "r", 5)?;
    assert_eq!(&rt; found.refusal, None);
    assert!(&rt; has_lines(alloc, &found.store, "1,0,4,0,0\n")?);
    let near = found
        .store
        .reads_of("r/dataset/Norder=0/Dir=0/Npix=0.parquet");
    let far = found
        .store
        .reads_of("r/dataset/Norder=0/Dir=0/Npix=6.parquet");
    assert!(&rt; near > far, "{near} {far}");
    Ok(())
}

// After each call that fails, and each after which the store stops, the output is as before or whole.
#[test]
fn calls_that_fail_in_turn(rt: HostRuntime) -> Result<(), Fail> {
    let alloc = rt.alloc();
    let left = [at(1, 0)];
    let right = [at(4, 0)];
    for stops in [false, true] {
        for number in 0..60 {
            let mut store = store_with(alloc, &base(&left), &base(&right))?;
            store.put(OUTPUT, b"as before")?;
            if stops {
                store.stop_after(number);
            } else {
                store.fail_calls(&[number])?;
            }
            let found = matched(alloc, store, "l", "r", 0)?;
            let calls = found.store.calls();
            assert!(&rt; calls < 60, "{calls} calls");
            let done = calls <= number;
            assert_eq!(&rt;
                found.refusal,
                if done {
                    None
                } else {
                    Some(Refusal::StoreFault)
                },
                "call {number}"
            );
            let left = found.store.reboot(number)?;
            let whole = has_lines(alloc, &left, "1,0,4,0,0\n")?;
            let before = left.file(OUTPUT) == Some(b"as before".as_slice());
            assert!(&rt; whole || !done && before, "call {number}");
        }
    }
    Ok(())
}
