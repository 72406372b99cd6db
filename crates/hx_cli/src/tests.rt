//! The top call over sources and sinks in memory. The expected texts are counted by hand.
mod around;
mod folders;
mod imports;
mod matches;
mod parquet;
mod plan;
mod several;
mod slow;
mod written;

ghost use Rattle.std.specs.Prelude.{◌≡◌, ◌<◌, IfOk, map, string_bytes};
ghost use Rattle.hx_mem.specs.Sources.{Memory};
ghost use Rattle.hx_cli.specs.declared.tests.slow.Slow.{Slow};

use crate::{input_names, run_plain, text_of};
use hx_base::{JobFile, Refusal};
use hx_mem::{MemSink, MemSource, MemStore};
use slow::Slow;
use std::alloc::{AllocError, Global};
use std::test::Fail;

// Reads give all bytes that are left.
const ALL: usize = 1 << 40;

// What a run gave and wrote.
#[derive(Drop)]
struct Shown {
    status: u8,
    refusal: Option<Refusal>,
    written: Vec<u8>,
}

// A source of these bytes, of which a read gives at most so many, and of which these calls fail.
fn source(
    alloc: Global,
    name: &str,
    bytes: &[u8],
    most: usize,
    failing: &[u64],
) -> Result<Slow<MemSource>, AllocError>
    requires { 0 < most }
    ensures { IfOk result (λ source. source.inner.name ≡ name.now) }
{
    let mut inner = MemSource::new(alloc, name, bytes)?;
    inner.fail_calls(failing)?;
    Ok(Slow { inner, most })
}

// Such a source for each name, with these contents and failing calls in order, and empty and without a fault behind.
fn sources(
    alloc: Global,
    names: &[String],
    contents: &[&[u8]],
    most: usize,
    failing: &[&[u64]],
) -> Result<Vec<Slow<MemSource>>, AllocError>
    requires { 0 < most }
    ensures { IfOk result (λ sources.
        map (λ (source : Slow Memory). source.inner.name) sources.items ≡ map string_bytes names.now) }
{
    let mut sources = Vec::new(alloc);
    let mut contents = contents.iter();
    let mut failing = failing.iter();
    for name in names {
        let bytes = contents.next().copied().unwrap_or(b"");
        let calls = failing.next().copied().unwrap_or(&[]);
        sources.push(source(alloc, name.as_str(), bytes, most, calls)?)?;
    }
    Ok(sources)
}

// The words of a line.
fn words_of(alloc: Global, line: &str) -> Result<Vec<String>, AllocError> {
    let mut words = Vec::new(alloc);
    for word in line.split_whitespace() {
        words.push(String::from_str(alloc, word)?)?;
    }
    Ok(words)
}

// The sources of a line and the sink of so much room.
#[derive(Drop)]
struct Given<'a> {
    contents: &'a [&'a [u8]],
    most: usize,
    failing: &'a [&'a [u64]],
    room: usize,
    ghost some: { 0 < most },
}

// Runs a line over such sources, a sink and a folder, which comes back.
fn run_in(
    alloc: Global,
    line: &str,
    given: &Given<'_>,
    store: MemStore,
) -> Result<(Shown, MemStore), AllocError> {
    let words = words_of(alloc, line)?;
    let names = input_names(alloc, words.as_slice())?;
    let inputs = sources(
        alloc,
        names.as_slice(),
        given.contents,
        given.most,
        given.failing,
    )?;
    let mut out = MemSink::new(alloc, given.room)?;
    let ran = run_plain(alloc, words.as_slice(), inputs, store, &mut out);
    let shown = Shown {
        status: ran.status,
        refusal: ran.refusal,
        written: out.bytes().to_vec(alloc)?,
    };
    Ok((shown, ran.store))
}

// Runs a line over such sources and a sink of so much room.
fn run_over(
    alloc: Global,
    line: &str,
    contents: &[&[u8]],
    most: usize,
    failing: &[&[u64]],
    room: usize,
) -> Result<Shown, AllocError>
    requires { 0 < most }
{
    let given = Given {
        contents,
        most,
        failing,
        room,
    };
    let (shown, _store) = run_in(alloc, line, &given, MemStore::new(alloc))?;
    Ok(shown)
}

fn run(alloc: Global, line: &str, bytes: &[u8]) -> Result<Shown, AllocError> {
    run_over(alloc, line, &[bytes], ALL, &[], 100)
}

#[test]
fn counts(rt: HostRuntime) -> Result<(), Fail> {
    let cases: [(&str, &[u8], &[u8]); 9] = [
        (
            "histogram 0 a.csv",
            b"id,_healpix_29,cx,cy,cz\n7,0,1000000000,0,0\n",
            b"0,1\n",
        ),
        (
            "histogram 0 a.csv",
            b"id,_healpix_29,cx,cy,cz\n7,3458764513820540927,1000000000,0,0\n",
            b"11,1\n",
        ),
        (
            "histogram 29 a.csv",
            b"id,_healpix_29,cx,cy,cz\n7,3458764513820540927,1000000000,0,0\n",
            b"3458764513820540927,1\n",
        ),
        // Order-1 pixels 2, 16, 2 and 0.
        (
            "histogram 1 a.csv",
            b"id,_healpix_29,cx,cy,cz\n1,144115188075855872,1000000000,0,0\n2,1152921504606846976,1000000000,0,0\n3,144115188075855873,1000000000,0,0\n4,0,1000000000,0,0\n",
            b"0,1\n2,2\n16,1\n",
        ),
        // Another order of the columns, with others between them.
        (
            "histogram 0 a.csv",
            b"cz,mag,_healpix_29,cx,id,cy,band\n0,21.5,0,1000000000,7,0,r\n",
            b"0,1\n",
        ),
        (
            "histogram 0 a.csv",
            b"\"id\",\"_healpix_29\",cx,cy,cz\n\"7\",\"0\",1000000000,0,0\n",
            b"0,1\n",
        ),
        (
            "histogram 0 a.csv",
            b"id,_healpix_29,cx,cy,cz\r\n7,0,1000000000,0,0\r\n8,0,1000000000,0,0\r\n",
            b"0,2\n",
        ),
        (
            "histogram 0 a.csv",
            b"id,_healpix_29,cx,cy,cz\n7,0,1000000000,0,0",
            b"0,1\n",
        ),
        ("histogram 0 a.csv", b"id,_healpix_29,cx,cy,cz\n", b""),
    ];
    for (line, bytes, text) in cases {
        let shown = run(rt.alloc(), line, bytes)?;
        assert_eq!(rt; shown.refusal, None, "{line}");
        assert_eq!(rt; shown.status, 0, "{line}");
        assert_eq!(rt; shown.written.as_slice(), text, "{line}");
    }
    Ok(())
}

#[test]
fn bad_inputs(rt: HostRuntime) -> Result<(), Fail> {
    let cases: [(&[u8], u64, u8); 7] = [
        (b"", 0, 1),
        (
            b"id,_healpix_29,cx,cy,cz\n7,3458764513820540928,1000000000,0,0\n",
            1,
            3,
        ),
        (
            b"id,_healpix_29,cx,cy,cz\n7,0,1000000000,0,0\n7,0,1000000000,0\n",
            2,
            2,
        ),
        (b"id,_healpix_29,cx,cy,cz\n7,-1,1000000000,0,0\n", 1, 3),
        (
            b"id,_healpix_29,cx,cy,cz\n00000000000000000007,0,1000000000,0,0\n",
            1,
            4,
        ),
        (b"id,_healpix_29,cx,cy,cz\n+5,0,1000000000,0,0\n", 1, 4),
        (b"id,_healpix_29,cx,cy,cz\n 5,0,1000000000,0,0\n", 1, 4),
    ];
    for (bytes, row, why) in cases {
        let shown = run(rt.alloc(), "histogram 0 a.csv", bytes)?;
        let refusal = Refusal::BadInput { input: 0, row, why };
        assert_eq!(rt; shown.refusal, Some(refusal));
        assert_eq!(rt; shown.status, 2);
        assert_eq!(rt; shown.written.as_slice(), b"".as_slice());
    }
    Ok(())
}

#[test]
fn lines_without_a_meaning(rt: HostRuntime) -> Result<(), Fail> {
    let lines = [
        "",
        "histogram 0",
        "plan --highest 21 a.csv",
        "around 0 12",
        "import --highest 3 --margin-order 3 t a.csv",
        "import t",
        "import A a.csv",
        "histogram 01 a.csv",
        "histogram 0 a.txt",
        "clean t_margin",
        "xmatch l r 2000000001 o",
    ];
    for line in lines {
        let shown = run(rt.alloc(), line, b"")?;
        assert_eq!(rt; shown.refusal, Some(Refusal::Usage), "{line}");
        assert_eq!(rt; shown.status, 1, "{line}");
    }
    Ok(())
}

#[test]
fn faults_of_the_outside(rt: HostRuntime) -> Result<(), Fail> {
    let line = "histogram 29 a.csv";
    let bytes = b"id,_healpix_29,cx,cy,cz\n7,0,1000000000,0,0\n".as_slice();
    // The length, and the first read.
    for failing in [0, 1] {
        let shown = run_over(rt.alloc(), line, &[bytes], ALL, &[&[failing]], 100)?;
        assert_eq!(rt; shown.refusal, Some(Refusal::InputFault { input: 0 }));
        assert_eq!(rt; shown.status, 6);
    }
    // The sink has room for a front of the text alone.
    let shown = run_over(rt.alloc(), line, &[bytes], ALL, &[], 2)?;
    assert_eq!(rt; shown.refusal, Some(Refusal::SinkFault));
    assert_eq!(rt; shown.status, 7);
    assert_eq!(rt; shown.written.as_slice(), b"0,".as_slice());
    // The same words again.
    let shown = run(rt.alloc(), line, bytes)?;
    assert_eq!(rt; shown.status, 0);
    assert_eq!(rt; shown.written.as_slice(), b"0,1\n".as_slice());
    // A byte a read.
    let shown = run_over(rt.alloc(), line, &[bytes], 1, &[], 100)?;
    assert_eq!(rt; shown.status, 0);
    assert_eq!(rt; shown.written.as_slice(), b"0,1\n".as_slice());
    Ok(())
}

#[test]
fn texts_of_refusals(rt: HostRuntime) -> Result<(), Fail> {
    let damaged = Refusal::Damaged {
        side: 2,
        file: JobFile::MarginSplit(17),
        place: 40,
    };
    let cases: [(Refusal, &[u8]); 15] = [
        (Refusal::Usage, b"usage"),
        (
            Refusal::BadInput {
                input: 1,
                row: 1,
                why: 4,
            },
            b"bad input 1 row 1 why 4",
        ),
        (
            Refusal::Overfull { pixel: 0, count: 3 },
            b"overfull pixel 0 count 3",
        ),
        (
            Refusal::TooNarrow {
                left: 0,
                right: 640,
                gap2: 0,
            },
            b"margin too narrow left 0 right 640 gap2 0",
        ),
        (Refusal::StoreFault, b"store fault"),
        (Refusal::InputFault { input: 0 }, b"input fault 0"),
        (Refusal::SinkFault, b"output fault"),
        (Refusal::Memory, b"out of memory"),
        (Refusal::NoCatalogue { side: 1 }, b"no catalogue 1"),
        (
            Refusal::OtherJob {
                place: 51,
                kept: 50,
                asked: 51,
            },
            b"other job at 51 kept 50 asked 51",
        ),
        (damaged, b"damaged 2 5 17 at 40"),
        (
            Refusal::Damaged {
                side: 1,
                file: JobFile::Properties,
                place: 0,
            },
            b"damaged 1 10 0 at 0",
        ),
        (
            Refusal::InputChanged {
                input: 3,
                pixel: 7,
                kept: 9,
                found: 8,
            },
            b"input 3 changed pixel 7 kept 9 found 8",
        ),
        (
            Refusal::TooMany {
                what: 2,
                found: 67_108_865,
                limit: 67_108_864,
            },
            b"too many 2 found 67108865 limit 67108864",
        ),
        (Refusal::NameTaken, b"name taken"),
    ];
    for (refusal, text) in cases {
        let shown = text_of(rt.alloc(), &refusal)?;
        assert_eq!(rt; shown.as_slice(), text, "{refusal:?}");
    }
    Ok(())
}
