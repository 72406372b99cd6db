//! Catalogues imported and matched, over folders in memory.
use super::folders::{SEVEN, after, refused};
use hx_base::Refusal;
use hx_mem::MemStore;
use std::alloc::Global;
use std::process::Abort;
use std::test::Fail;

const HEADER: &[u8] = b"id,_healpix_29,match_id,match_healpix_29,chord2\n";

// A folder with the catalogues `l` and `r` of these rows, whose partitions are the pixels of order 0.
fn folder(rt: &impl Abort, alloc: Global, left: &[u8], right: &[u8]) -> Result<MemStore, Fail> {
    let mut store = MemStore::new(alloc);
    for (line, rows) in [
        ("import --highest 0 --margin-order 1 l a.csv", left),
        ("import --highest 0 --margin-order 1 r a.csv", right),
    ] {
        let (shown, then) = super::folders::run_line(alloc, line, &[rows], store)?;
        assert_eq!(rt; shown.refusal, None, "{line}");
        store = then;
    }
    Ok(store)
}

fn has_lines(rt: &impl Abort, alloc: Global, store: &MemStore, lines: &[u8]) -> Result<(), Fail> {
    let mut text = HEADER.to_vec(alloc)?;
    text.extend_from_slice(lines)?;
    let whole = store
        .file("o.csv")
        .is_some_and(|bytes| bytes == text.as_slice());
    assert!(rt; whole);
    Ok(())
}

// Each pair of catalogues with a line, what it writes, and the lines of the match.
#[test]
fn nearest_rows(rt: HostRuntime) -> Result<(), Fail> {
    let alloc = rt.alloc();
    let one: &[u8] = b"id,_healpix_29,cx,cy,cz\n1,0,1000000000,0,0\n";
    let cases: [(&[u8], &[u8], &str, &[u8], &[u8]); 6] = [
        // Of equal chords the least id, then the least position.
        (
            one,
            b"id,_healpix_29,cx,cy,cz\n9,0,1000000000,0,0\n4,0,1000000000,0,0\n",
            "xmatch l r 0 o",
            b"l r rows 1 matched 1\n",
            b"1,0,4,0,0\n",
        ),
        (
            one,
            b"id,_healpix_29,cx,cy,cz\n4,5,1000000000,0,0\n4,3,1000000000,0,0\n",
            "xmatch l r 0 o",
            b"l r rows 1 matched 1\n",
            b"1,0,4,3,0\n",
        ),
        (
            one,
            b"id,_healpix_29,cx,cy,cz\n9,3,1000000000,0,0\n4,5,1000000000,0,0\n",
            "xmatch l r 0 o",
            b"l r rows 1 matched 1\n",
            b"1,0,4,5,0\n",
        ),
        // Opposite points.
        (
            one,
            b"id,_healpix_29,cx,cy,cz\n2,5,-1000000000,0,0\n",
            "xmatch l r 2000000000 o",
            b"l r rows 1 matched 1\n",
            b"1,0,2,5,4000000000000000000\n",
        ),
        (
            one,
            b"id,_healpix_29,cx,cy,cz\n2,5,-1000000000,0,0\n",
            "xmatch l r 1999999999 o",
            b"l r rows 1 matched 0\n",
            b"1,0,,,\n",
        ),
        // Pixels that meet at the pole alone, where no right partition contains the left row.
        (
            b"id,_healpix_29,cx,cy,cz\n1,216172782113783808,1000000000,0,0\n",
            b"id,_healpix_29,cx,cy,cz\n2,792633534417207296,1000000000,0,0\n",
            "xmatch l r 5 o",
            b"l r rows 1 matched 1\n",
            b"1,216172782113783808,2,792633534417207296,0\n",
        ),
    ];
    for (left, right, line, text, lines) in cases {
        let store = folder(&rt, alloc, left, right)?;
        let store = after(&rt, alloc, line, &[], store, text)?;
        has_lines(&rt, alloc, &store, lines)?;
    }
    Ok(())
}

#[test]
fn no_right_rows(rt: HostRuntime) -> Result<(), Fail> {
    let alloc = rt.alloc();
    let store = folder(&rt, alloc, SEVEN, b"id,_healpix_29,cx,cy,cz\n")?;
    let store = after(
        &rt,
        alloc,
        "xmatch l r 9 o",
        &[],
        store,
        b"l r rows 1 matched 0\n",
    )?;
    has_lines(&rt, alloc, &store, b"7,0,,,\n")?;
    let store = after(
        &rt,
        alloc,
        "xmatch l l 0 o",
        &[],
        store,
        b"l l rows 1 matched 1\n",
    )?;
    has_lines(&rt, alloc, &store, b"7,0,7,0,0\n")?;
    let _store = after(
        &rt,
        alloc,
        "xmatch r l 0 o",
        &[],
        store,
        b"r l rows 0 matched 0\n",
    )?;
    Ok(())
}

#[test]
fn margin_too_narrow(rt: HostRuntime) -> Result<(), Fail> {
    let alloc = rt.alloc();
    let right = b"id,_healpix_29,cx,cy,cz\n2,2882303761517117440,1000000000,0,0\n";
    let mut store = folder(&rt, alloc, SEVEN, right)?;
    store.put("o.csv", b"before")?;
    let narrow = Refusal::TooNarrow {
        left: 0,
        right: 640,
        gap2: 0,
    };
    let store = refused(&rt, alloc, "xmatch l r 10 o", &[], store, narrow)?;
    assert!(&rt;
        store
            .file("o.csv")
            .is_some_and(|bytes| bytes == b"before".as_slice())
    );
    Ok(())
}

#[test]
fn no_catalogues(rt: HostRuntime) -> Result<(), Fail> {
    let alloc = rt.alloc();
    let none = Refusal::NoCatalogue { side: 1 };
    for line in ["xmatch l r 0 o", "xmatch l l 0 o", "clean l"] {
        let store = refused(&rt, alloc, line, &[], MemStore::new(alloc), none)?;
        assert!(&rt; store.file("o.csv").is_none());
    }
    Ok(())
}

#[test]
fn absent_catalogues(rt: HostRuntime) -> Result<(), Fail> {
    let alloc = rt.alloc();
    let store = folder(&rt, alloc, SEVEN, SEVEN)?;
    let left = Refusal::NoCatalogue { side: 1 };
    let right = Refusal::NoCatalogue { side: 2 };
    let store = refused(&rt, alloc, "xmatch a b 0 o", &[], store, left)?;
    let store = refused(&rt, alloc, "xmatch a r 0 o", &[], store, left)?;
    let store = refused(&rt, alloc, "xmatch l b 0 o", &[], store, right)?;
    assert!(&rt; store.file("o.csv").is_none());
    Ok(())
}
