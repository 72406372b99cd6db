//! Small skies, and imports of them by one worker.
ghost use Rattle.std.specs.Prelude.{◌≡◌, ◌≤◌, ◌+◌, All, IfOk, length, map};
ghost use Rattle.hx_base.specs.FileWords.{IsFileWord};
ghost use Rattle.hx_base.specs.Limits.{FitsLimits};

use crate::import_one;
use hx_base::{Name, Row, Settings, is_file_word};
use hx_book::Closed;
use hx_mem::{MemSource, MemStore};
use hx_outside::Source;
use hx_rows::read_rows;
use std::alloc::Global;
use std::process::Abort;
use std::test::Fail;

const HEADER: &str = "id,_healpix_29,cx,cy,cz\n";

pub(super) const JOURNAL: &str = "t.work/journal";

// The first positions of some pixels of order 1: 3 lies in the pixel 0 of order 0, 7 and 4 lie in 1, and 13 in 3. Of
// these 3 touches 7 and 13, and no others touch.
const AT_3: u64 = 216_172_782_113_783_808;

const AT_7: u64 = 504_403_158_265_495_552;

const AT_4: u64 = 288_230_376_151_711_744;

const AT_13: u64 = 936_748_722_493_063_168;

/// What is imported as the catalogue `t`, with partitions of order 0 and margins of order 1.
#[derive(Clone, Copy, Debug, PartialEq, Eq)]
pub(super) enum Sky {
    /// Three equal rows.
    OnePart,
    /// Two rows of each of two inputs, in three partitions with margins.
    ThreeParts,
}

// The files of each catalogue.
const OF_ONE_PART: &[&str] = &[
    "t/hats.properties",
    "t/partition_info.csv",
    "t/dataset/Norder=0/Dir=0/Npix=0.parquet",
    "t_margin/hats.properties",
    "t_margin/partition_info.csv",
    "t_margin/dataset/Norder=0/Dir=0/Npix=0.parquet",
];

const OF_THREE_PARTS: &[&str] = &[
    "t/hats.properties",
    "t/partition_info.csv",
    "t/dataset/Norder=0/Dir=0/Npix=0.parquet",
    "t/dataset/Norder=0/Dir=0/Npix=1.parquet",
    "t/dataset/Norder=0/Dir=0/Npix=3.parquet",
    "t_margin/hats.properties",
    "t_margin/partition_info.csv",
    "t_margin/dataset/Norder=0/Dir=0/Npix=0.parquet",
    "t_margin/dataset/Norder=0/Dir=0/Npix=1.parquet",
    "t_margin/dataset/Norder=0/Dir=0/Npix=3.parquet",
];

/// The files of the catalogue and of its margin catalogue.
pub(super) fn files_of(sky: Sky) -> &'static [&'static str] {
    match sky {
        Sky::OnePart => OF_ONE_PART,
        Sky::ThreeParts => OF_THREE_PARTS,
    }
}

/// Settings of a catalogue `t`.
pub(super) fn settings_of(
    alloc: Global,
    lowest: u8,
    highest: u8,
    threshold: u64,
    margin_order: u8,
) -> Result<Settings, Fail>
    ensures { IfOk result FitsLimits }
{
    let settings = Settings {
        name: Name::new(alloc, "t")?.ok_or("no name")?,
        lowest,
        highest,
        threshold,
        margin_order,
    };
    if !settings.fits() {
        return Err("settings".into());
    }
    Ok(settings)
}

/// An input of rows with these ids and positions, all with one vector.
pub(super) fn input(alloc: Global, name: &str, rows: &[(u32, u64)]) -> Result<MemSource, Fail> {
    let mut text = String::from_str(alloc, HEADER)?;
    for (id, hp) in rows {
        writeln!(text, "{id},{hp},1000000000,0,0")?;
    }
    Ok(MemSource::new(alloc, name, text.as_str().as_bytes())?)
}

/// Inputs with one more.
pub(super) fn with<Src: Source>(inputs: Vec<Src>, source: Src) -> Result<Vec<Src>, Fail>
    requires words { All IsFileWord (map Src.source.label inputs.items) }
    ensures words { IfOk result (λ more. All IsFileWord (map Src.source.label more.items)) }
    ensures long { IfOk result (λ more. length more.items ≡ length inputs.items + 1) }
{
    if !is_file_word(source.name()) {
        return Err("no file word".into());
    }
    let mut inputs = inputs;
    inputs.push(source)?;
    Ok(inputs)
}

// The first input of a sky.
fn first(alloc: Global, sky: Sky) -> Result<MemSource, Fail> {
    match sky {
        Sky::OnePart => input(alloc, "a.csv", &[(7, 0), (7, 0), (7, 0)]),
        Sky::ThreeParts => input(alloc, "a.csv", &[(1, AT_3), (2, AT_7)]),
    }
}

// The second input of the sky that has two.
fn second(alloc: Global) -> Result<MemSource, Fail> {
    input(alloc, "b.csv", &[(3, AT_4), (4, AT_13)])
}

/// Imports a sky over a store. Those calls of each of its inputs fail.
pub(super) fn import_failing(
    alloc: Global,
    sky: Sky,
    failing: &[u64],
    failing_second: &[u64],
    store: MemStore,
) -> Result<Closed<MemSource, MemStore>, Fail> {
    let asked = settings_of(alloc, 0, 0, 1_000_000, 1)?;
    let mut a = first(alloc, sky)?;
    a.fail_calls(failing)?;
    let inputs = with(Vec::new(alloc), a)?;
    match sky {
        Sky::OnePart => Ok(import_one(alloc, asked, inputs, store)),
        Sky::ThreeParts => {
            let mut b = second(alloc)?;
            b.fail_calls(failing_second)?;
            let both = with(inputs, b)?;
            Ok(import_one(alloc, asked, both, store))
        }
    }
}

/// Imports a sky over a store.
pub(super) fn import(
    alloc: Global,
    sky: Sky,
    store: MemStore,
) -> Result<Closed<MemSource, MemStore>, Fail> {
    import_failing(alloc, sky, &[], &[], store)
}

/// A new import of a sky.
pub(super) fn whole(rt: &impl Abort, alloc: Global, sky: Sky) -> Result<MemStore, Fail> {
    finished(rt, alloc, sky, MemStore::new(alloc))
}

/// The store after an import of a sky that isn't refused, with the numbers of its rows, partitions and rows of margins.
pub(super) fn finished(
    rt: &impl Abort,
    alloc: Global,
    sky: Sky,
    store: MemStore,
) -> Result<MemStore, Fail> {
    let done = import(alloc, sky, store)?;
    assert_eq!(rt; done.refusal, None);
    assert_eq!(rt;
        (done.rows, done.partitions, done.margin),
        match sky {
            Sky::OnePart => (3, 1, 0),
            Sky::ThreeParts => (4, 3, 5),
        }
    );
    Ok(done.store)
}

/// Two stores have the same catalogue of a sky.
pub(super) fn have_same_files(rt: &impl Abort, sky: Sky, one: &MemStore, other: &MemStore) {
    for path in files_of(sky) {
        assert_eq!(rt; one.file(path), other.file(path), "{path}");
    }
}

/// The ids and positions of the rows of a Parquet file.
pub(super) fn rows_in(
    alloc: Global,
    store: &MemStore,
    path: &str,
) -> Result<Vec<(i64, u64)>, Fail> {
    let bytes = store.file(path).ok_or("no file")?;
    let Ok(rows) = read_rows(alloc, ".parquet", bytes) else {
        return Err("no rows".into());
    };
    let mut shown = Vec::new(alloc);
    for row in &rows {
        let Row { id, hp, x, y, z } = *row;
        if (x, y, z) != (1_000_000_000, 0, 0) {
            return Err("another vector".into());
        }
        shown.push((id, hp))?;
    }
    Ok(shown)
}

/// Bytes of which one is another.
pub(super) fn with_byte(
    alloc: Global,
    bytes: &[u8],
    place: usize,
    byte: u8,
) -> Result<Vec<u8>, Fail> {
    let mut changed = bytes.to_vec(alloc)?;
    if place >= changed.len() || changed[place] == byte {
        return Err("no other byte".into());
    }
    changed[place] = byte;
    Ok(changed)
}
