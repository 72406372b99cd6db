//! A catalogue in a store: opened and loaded, with each file absent, cut, damaged or of another kind.
use crate::{Catalogue, Properties, list_text, open_catalogue, properties_text};
use hx_base::{JobFile, Name, Pixel, Refusal, Row, Settings};
use hx_mem::MemStore;
use hx_outside::Store;
use hx_pqwrite::write;
use std::alloc::{AllocError, Global};
use std::process::Abort;
use std::test::Fail;

const PROPERTIES: &str = "t/hats.properties";

const LIST: &str = "t/partition_info.csv";

const FIRST: &str = "t/dataset/Norder=0/Dir=0/Npix=0.parquet";

const SECOND: &str = "t/dataset/Norder=0/Dir=0/Npix=1.parquet";

const FIRST_MARGIN: &str = "t_margin/dataset/Norder=0/Dir=0/Npix=0.parquet";

const SECOND_MARGIN: &str = "t_margin/dataset/Norder=0/Dir=0/Npix=1.parquet";

// The rows of the two partitions: A in the first, C and B in the second. Each margin is a row of the other.
const A: Row = Row {
    hp: 216_172_782_113_783_808,
    id: 1,
    x: 1_000_000_000,
    y: 0,
    z: 0,
};

const B: Row = Row {
    hp: 504_403_158_265_495_552,
    id: 2,
    ..A
};

const C: Row = Row {
    hp: 288_230_376_151_711_744,
    id: 3,
    ..A
};

fn name_of(alloc: Global, text: &str) -> Result<Name, Fail> {
    Ok(Name::new(alloc, text)?.ok_or("no name")?)
}

fn properties_of(alloc: Global, name: &str, margin: bool) -> Result<Vec<u8>, Fail> {
    let settings = Settings {
        name: name_of(alloc, name)?,
        lowest: 0,
        highest: 0,
        threshold: 1_000_000,
        margin_order: 1,
    };
    let properties = Properties {
        settings,
        margin,
        rows: 3,
        partitions: 2,
    };
    Ok(properties_text(alloc, &properties)?)
}

// The file of rows, whose positions are below 2^63.
fn written(rt: &impl Abort, alloc: Global, rows: &[Row]) -> Result<Vec<u8>, AllocError> {
    assert!(rt; rows.iter().all(|row| row.hp < 9_223_372_036_854_775_808));
    write(alloc, rows)
}

fn store_with(rt: &impl Abort, alloc: Global) -> Result<MemStore, Fail> {
    let mut store = MemStore::new(alloc);
    let parts = [
        Pixel {
            order: 0,
            number: 0,
        },
        Pixel {
            order: 0,
            number: 1,
        },
    ];
    store.put(PROPERTIES, &properties_of(alloc, "t", false)?)?;
    store.put(LIST, &list_text(alloc, &parts)?)?;
    store.put(FIRST, &written(rt, alloc, &[A])?)?;
    store.put(SECOND, &written(rt, alloc, &[C, B])?)?;
    store.put(FIRST_MARGIN, &written(rt, alloc, &[B])?)?;
    store.put(SECOND_MARGIN, &written(rt, alloc, &[A])?)?;
    Ok(store)
}

fn opened(alloc: Global, store: &mut MemStore) -> Result<Catalogue, Fail> {
    match open_catalogue(alloc, store, &name_of(alloc, "t")?, 1) {
        Ok(catalogue) => Ok(catalogue),
        Err(_) => Err(Fail::from("not opened")),
    }
}

// Why the catalogue isn't opened on the right; none where it is.
fn refusal_of(alloc: Global, store: &mut MemStore) -> Result<Option<Refusal>, Fail> {
    let name = name_of(alloc, "t")?;
    match open_catalogue(alloc, store, &name, 2) {
        Ok(_) => Ok(None),
        Err(refusal) => Ok(Some(refusal)),
    }
}

fn loaded(
    rt: &impl Abort,
    catalogue: &Catalogue,
    store: &mut MemStore,
    part: u32,
    margin: bool,
) -> Result<Vec<Row>, Refusal> {
    assert!(rt; (part as usize) < catalogue.parts().len());
    catalogue.load(store, part, margin)
}

const fn damaged(file: JobFile, place: u64) -> Option<Refusal> {
    Some(Refusal::Damaged {
        side: 2,
        file,
        place,
    })
}

#[test]
fn a_catalogue_is_opened_and_loaded(rt: HostRuntime) -> Result<(), Fail> {
    let alloc = rt.alloc();
    let mut store = store_with(&rt, alloc)?;
    let catalogue = opened(alloc, &mut store)?;
    assert_eq!(&rt; catalogue.parts().len(), 2);
    assert_eq!(&rt; catalogue.properties().rows, 3);
    assert_eq!(&rt; catalogue.tree().holder(288_230_376_151_711_744), Some(1));
    let cases: [(u32, bool, &[Row]); 4] = [
        (0, false, &[A]),
        (1, false, &[C, B]),
        (0, true, &[B]),
        (1, true, &[A]),
    ];
    for (part, margin, rows) in cases {
        let found = loaded(&rt, &catalogue, &mut store, part, margin);
        assert!(&rt; matches!(&found, Ok(found) if found.as_slice() == rows));
    }
    Ok(())
}

// Each text in place of the properties or of the list, with the refusal that it gives.
#[test]
fn texts_that_are_not_its_own(rt: HostRuntime) -> Result<(), Fail> {
    let alloc = rt.alloc();
    let margin = properties_of(alloc, "t", true)?;
    let other = properties_of(alloc, "u", false)?;
    let own = properties_of(alloc, "t", false)?;
    let cases: [(&str, &[u8], Option<Refusal>); 8] = [
        (PROPERTIES, &margin, damaged(JobFile::Properties, 29)),
        (PROPERTIES, &other, damaged(JobFile::Properties, 22)),
        (PROPERTIES, b"", damaged(JobFile::Properties, 0)),
        (
            PROPERTIES,
            b"Norder,Npix\n",
            damaged(JobFile::Properties, 0),
        ),
        (LIST, &own, damaged(JobFile::List, 0)),
        (LIST, b"", damaged(JobFile::List, 0)),
        (LIST, b"Norder,Npix\n0,0\n0,0\n", damaged(JobFile::List, 16)),
        (LIST, b"Norder,Npix\n", None),
    ];
    for (file, bytes, expected) in cases {
        let mut store = store_with(&rt, alloc)?;
        store.put(file, bytes)?;
        assert_eq!(&rt; refusal_of(alloc, &mut store)?, expected);
    }
    let mut store = store_with(&rt, alloc)?;
    assert!(&rt; store.remove(LIST).is_ok());
    assert_eq!(&rt; refusal_of(alloc, &mut store)?, damaged(JobFile::List, 0));
    assert!(&rt; store.remove(PROPERTIES).is_ok());
    assert_eq!(&rt;
        refusal_of(alloc, &mut store)?,
        Some(Refusal::NoCatalogue { side: 2 })
    );
    Ok(())
}

// Where the last line of a text begins that has no newline behind it.
fn last_line(text: &[u8]) -> usize {
    let mut place = 0;
    for i in 0..text.len() {
        if text[i] == b'\n' {
            place = i + 1;
        }
    }
    place
}

#[test]
fn texts_that_are_cut(rt: HostRuntime) -> Result<(), Fail> {
    let alloc = rt.alloc();
    let properties = properties_of(alloc, "t", false)?;
    let list = b"Norder,Npix\n0,0\n0,1\n".as_slice();
    let files = [
        (PROPERTIES, JobFile::Properties, properties.as_slice()),
        (LIST, JobFile::List, list),
    ];
    for (path, file, text) in files {
        let mut store = store_with(&rt, alloc)?;
        for cut in 1..text.len() {
            store.put(path, &text[..cut])?;
            let place = last_line(&text[..cut]);
            let is_list = file == JobFile::List && place == cut;
            let expected = if is_list {
                None
            } else {
                damaged(file, place as u64)
            };
            assert_eq!(&rt; refusal_of(alloc, &mut store)?, expected, "cut at {cut}");
            store.put(path, &text[cut..])?;
            assert_eq!(&rt;
                refusal_of(alloc, &mut store)?,
                damaged(file, 0),
                "from {cut} on"
            );
        }
    }
    Ok(())
}

fn is_damaged(found: &Result<Vec<Row>, Refusal>, file: JobFile, place: u64) -> bool {
    match found {
        Ok(_) => false,
        Err(refusal) => {
            *refusal
                == Refusal::Damaged {
                    side: 1,
                    file,
                    place,
                }
        }
    }
}

#[test]
fn files_of_rows_that_are_cut(rt: HostRuntime) -> Result<(), Fail> {
    let alloc = rt.alloc();
    let mut store = store_with(&rt, alloc)?;
    let catalogue = opened(alloc, &mut store)?;
    let files = [
        (FIRST, JobFile::Part(0), false, written(&rt, alloc, &[A])?),
        (
            FIRST_MARGIN,
            JobFile::Margin(0),
            true,
            written(&rt, alloc, &[B])?,
        ),
    ];
    for (path, file, margin, bytes) in files {
        for cut in 1..bytes.len() {
            store.put(path, &bytes[..cut])?;
            let front = loaded(&rt, &catalogue, &mut store, 0, margin);
            assert!(&rt; is_damaged(&front, file, 0), "cut at {cut}");
            store.put(path, &bytes[cut..])?;
            let back = loaded(&rt, &catalogue, &mut store, 0, margin);
            assert!(&rt; is_damaged(&back, file, 0), "from {cut} on");
        }
        assert!(&rt; store.remove(path).is_ok());
        let absent = loaded(&rt, &catalogue, &mut store, 0, margin);
        assert!(&rt; is_damaged(&absent, file, 0));
        store.put(path, b"Norder,Npix\n")?;
        let other = loaded(&rt, &catalogue, &mut store, 0, margin);
        assert!(&rt; is_damaged(&other, file, 0));
        store.put(path, &bytes)?;
        assert!(&rt; loaded(&rt, &catalogue, &mut store, 0, margin).is_ok());
    }
    Ok(())
}

// The place of a footer, by the length that stands before the last four bytes.
fn footer_place(bytes: &[u8]) -> Option<usize> {
    let (length, _) = bytes.last_chunk::<8>()?.split_first_chunk::<4>()?;
    let behind = u32::from_le_bytes(*length) as usize;
    bytes.len().checked_sub(8)?.checked_sub(behind)
}

#[test]
fn a_fault_of_thrift_keeps_its_place(rt: HostRuntime) -> Result<(), Fail> {
    let alloc = rt.alloc();
    let mut store = store_with(&rt, alloc)?;
    let catalogue = opened(alloc, &mut store)?;
    let mut bytes = written(&rt, alloc, &[C, B])?;
    let place = footer_place(&bytes).ok_or("no footer")?;
    assert!(&rt; place < bytes.len());
    // A field of kind 15.
    bytes[place] = 0x1f;
    store.put(SECOND, &bytes)?;
    let found = loaded(&rt, &catalogue, &mut store, 1, false);
    assert!(&rt; is_damaged(&found, JobFile::Part(1), place as u64));
    Ok(())
}

// Rows in the file of the second partition or of its margin, and whether they are read there.
#[test]
fn rows_that_belong_there(rt: HostRuntime) -> Result<(), Fail> {
    let alloc = rt.alloc();
    let mut store = store_with(&rt, alloc)?;
    let catalogue = opened(alloc, &mut store)?;
    let short = Row { x: 0, ..C };
    let beyond = Row {
        hp: 3_458_764_513_820_540_928,
        ..C
    };
    let cases: [(&[Row], bool, bool); 7] = [
        (&[], true, true),
        (&[C, C, B], true, true),
        (&[B, C], false, false),
        (&[short], false, false),
        (&[C, beyond], false, false),
        (&[A], false, true),
        (&[A, C, B], false, true),
    ];
    for (rows, own, margin) in cases {
        let bytes = written(&rt, alloc, rows)?;
        store.put(SECOND, &bytes)?;
        store.put(SECOND_MARGIN, &bytes)?;
        let found = loaded(&rt, &catalogue, &mut store, 1, false);
        let found_margin = loaded(&rt, &catalogue, &mut store, 1, true);
        assert_eq!(&rt; found.is_ok(), own);
        assert_eq!(&rt; found_margin.is_ok(), margin);
        assert!(&rt; own || is_damaged(&found, JobFile::Part(1), 0));
        assert!(&rt; margin || is_damaged(&found_margin, JobFile::Margin(1), 0));
    }
    Ok(())
}

// The partition behind the last file: it is listed, and loading finds no file.
#[test]
fn a_partition_without_files(rt: HostRuntime) -> Result<(), Fail> {
    let alloc = rt.alloc();
    let mut store = store_with(&rt, alloc)?;
    store.put(LIST, b"Norder,Npix\n0,0\n0,1\n0,2\n")?;
    let catalogue = opened(alloc, &mut store)?;
    let found = loaded(&rt, &catalogue, &mut store, 2, false);
    assert!(&rt; is_damaged(&found, JobFile::Part(2), 0));
    let found = loaded(&rt, &catalogue, &mut store, 2, true);
    assert!(&rt; is_damaged(&found, JobFile::Margin(2), 0));
    Ok(())
}

// Each call of the store fails in turn, in opening and in loading.
#[test]
fn faults_of_the_store(rt: HostRuntime) -> Result<(), Fail> {
    let alloc = rt.alloc();
    let mut store = store_with(&rt, alloc)?;
    let catalogue = opened(alloc, &mut store)?;
    let calls = store.calls();
    assert!(&rt; calls >= 4 && calls < 100);
    for number in 0..calls {
        let mut failing = store_with(&rt, alloc)?;
        failing.fail_calls(&[number])?;
        assert_eq!(&rt; refusal_of(alloc, &mut failing)?, Some(Refusal::StoreFault));
    }
    let found = loaded(&rt, &catalogue, &mut store, 1, false);
    assert!(&rt; found.is_ok());
    let loading = store.calls().saturating_sub(calls);
    assert!(&rt; loading >= 2 && loading < 100);
    for number in 0..loading {
        let mut failing = store_with(&rt, alloc)?;
        failing.fail_calls(&[number])?;
        let found = loaded(&rt, &catalogue, &mut failing, 1, false);
        assert!(&rt; matches!(found, Err(Refusal::StoreFault)));
    }
    Ok(())
}
