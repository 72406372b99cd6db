use crate::{Properties, properties_text, read_properties};
use hx_base::{Name, Settings, SpillRefusal};
use std::alloc::{AllocError, Global};
use std::process::Abort;
use std::test::Fail;

const LINES: [&str; 9] = [
    "format=hats-profile-1",
    "name=t",
    "kind=object",
    "rows=3",
    "lowest=0",
    "highest=7",
    "threshold=1000000",
    "margin_order=10",
    "partitions=2",
];

// Where each line begins, and where the last ends.
const PLACES: [u64; 10] = [0, 22, 29, 41, 48, 57, 67, 85, 101, 114];

fn push_line(text: &mut Vec<u8>, line: &str) -> Result<(), AllocError> {
    text.extend_from_slice(line.as_bytes())?;
    text.push(b'\n')?;
    Ok(())
}

// The lines, with another in the place of one.
fn text_with(alloc: Global, changed: usize, line: &str) -> Result<Vec<u8>, AllocError> {
    let mut text = Vec::new(alloc);
    for (i, old) in LINES.iter().enumerate() {
        push_line(&mut text, if i == changed { line } else { *old })?;
    }
    Ok(text)
}

// The lines without one.
fn text_without(alloc: Global, missing: usize) -> Result<Vec<u8>, AllocError> {
    let mut text = Vec::new(alloc);
    for (i, line) in LINES.iter().enumerate() {
        if i != missing {
            push_line(&mut text, *line)?;
        }
    }
    Ok(text)
}

// The lines, one of them twice.
fn text_with_two(alloc: Global, doubled: usize) -> Result<Vec<u8>, AllocError> {
    let mut text = Vec::new(alloc);
    for (i, line) in LINES.iter().enumerate() {
        push_line(&mut text, *line)?;
        if i == doubled {
            push_line(&mut text, *line)?;
        }
    }
    Ok(text)
}

// The lines, one of them behind the one that follows it.
fn text_exchanged(alloc: Global, first: usize) -> Result<Vec<u8>, AllocError> {
    let mut text = Vec::new(alloc);
    let mut kept = "";
    for (i, line) in LINES.iter().enumerate() {
        if i == first {
            kept = *line;
            continue;
        }
        push_line(&mut text, *line)?;
        if !kept.is_empty() {
            push_line(&mut text, kept)?;
            kept = "";
        }
    }
    Ok(text)
}

// The place of the first line that breaks a rule, if there is one.
fn place_of(alloc: Global, text: &[u8]) -> Result<Option<u64>, Fail> {
    match read_properties(alloc, text) {
        Ok(_) => Ok(None),
        Err(SpillRefusal::Damaged { place }) => Ok(Some(place)),
        Err(SpillRefusal::Memory) => Err(Fail::from("no memory")),
    }
}

#[test]
fn written_and_read(rt: HostRuntime) -> Result<(), Fail> {
    let name = Name::new(rt.alloc(), "gaia_dr3")?.ok_or("no name")?;
    let settings = Settings {
        name,
        lowest: 1,
        highest: 9,
        threshold: 250_000,
        margin_order: 12,
    };
    let of = Properties {
        settings,
        margin: true,
        rows: 18_446_744_073_709_551_615,
        partitions: 4_294_967_295,
    };
    let text = properties_text(rt.alloc(), &of)?;
    let want =
        "format=hats-profile-1\nname=gaia_dr3\nkind=margin\nrows=18446744073709551615\nlowest=1\nhighest=9\nthreshold=250000\nmargin_order=12\npartitions=4294967295\n";
    assert_eq!(rt; text.as_slice(), want.as_bytes());
    let Ok(read) = read_properties(rt.alloc(), &text) else {
        return Err(Fail::from("not read"));
    };
    assert_eq!(rt; read.settings.name.as_str(), "gaia_dr3");
    assert_eq!(rt; (read.settings.lowest, read.settings.highest), (1, 9));
    assert_eq!(rt;
        (read.settings.threshold, read.settings.margin_order),
        (250_000, 12)
    );
    assert_eq!(rt;
        (read.margin, read.rows, read.partitions),
        (true, of.rows, of.partitions)
    );
    Ok(())
}

fn check(rt: &impl Abort, alloc: Global, text: &[u8], want: Option<u64>) -> Result<(), Fail> {
    let place = place_of(alloc, text)?;
    assert_eq!(rt; place, want, "{text:?}");
    Ok(())
}

#[test]
fn lines_missing(rt: HostRuntime) -> Result<(), Fail> {
    for (i, place) in PLACES[..9].iter().enumerate() {
        check(&rt, rt.alloc(), &text_without(rt.alloc(), i)?, Some(*place))?;
    }
    Ok(())
}

#[test]
fn lines_doubled(rt: HostRuntime) -> Result<(), Fail> {
    for (i, place) in PLACES[1..].iter().enumerate() {
        check(
            &rt,
            rt.alloc(),
            &text_with_two(rt.alloc(), i)?,
            Some(*place),
        )?;
    }
    Ok(())
}

#[test]
fn lines_exchanged(rt: HostRuntime) -> Result<(), Fail> {
    for (i, place) in PLACES[..8].iter().enumerate() {
        check(
            &rt,
            rt.alloc(),
            &text_exchanged(rt.alloc(), i)?,
            Some(*place),
        )?;
    }
    Ok(())
}

// Each line with what stands in its place: the properties are read, and have this text.
#[test]
fn lines_that_fit(rt: HostRuntime) -> Result<(), Fail> {
    let cases = [
        (1, "name=margin"),
        (1, "name=abcdefghijklmnopqrstuvwxyz012345"),
        (2, "kind=margin"),
        (3, "rows=0"),
        (3, "rows=18446744073709551615"),
        (4, "lowest=7"),
        (5, "highest=0"),
        (5, "highest=9"),
        (6, "threshold=1"),
        (7, "margin_order=8"),
        (7, "margin_order=24"),
        (8, "partitions=0"),
        (8, "partitions=4294967295"),
    ];
    for (i, line) in cases {
        let text = text_with(rt.alloc(), i, line)?;
        let Ok(read) = read_properties(rt.alloc(), &text) else {
            return Err(Fail::from("not read"));
        };
        assert_eq!(rt; properties_text(rt.alloc(), &read)?, text, "{line}");
    }
    Ok(())
}

// Each line with what stands in its place and breaks a rule there.
#[test]
fn lines_that_break_a_rule(rt: HostRuntime) -> Result<(), Fail> {
    let cases = [
        (0, 0, "format=hats-profile-2"),
        (0, 0, "Format=hats-profile-1"),
        (0, 0, "format=hats-profile-1 "),
        (1, 22, "name=abcdefghijklmnopqrstuvwxyz0123456"),
        (1, 22, "name="),
        (1, 22, "name=T"),
        (1, 22, "name=é"),
        (1, 22, "name=t_margin"),
        (1, 22, "name=_margin"),
        (1, 22, "name"),
        (2, 29, "kind=margins"),
        (2, 29, "kind=Object"),
        (2, 29, "kind="),
        (3, 41, "rows=18446744073709551616"),
        (3, 41, "rows="),
        (3, 41, "rows=03"),
        (3, 41, "rows=00"),
        (3, 41, "rows=+3"),
        (3, 41, "rows=-3"),
        (3, 41, "rows=3 "),
        (3, 41, "rows:3"),
        (4, 48, "lowest=00"),
        (4, 48, "lowest=21"),
        (4, 48, "lowest=256"),
        (5, 57, "highest=07"),
        (5, 57, "highest=21"),
        (6, 67, "threshold=0"),
        (6, 67, "threshold=1000001"),
        (6, 67, "threshold=01"),
        (7, 85, "margin_order=7"),
        (7, 85, "margin_order=25"),
        (7, 85, "margin_order=010"),
        (8, 101, "partitions=4294967296"),
        (8, 101, "partitions=02"),
        (8, 101, "partitions=two"),
    ];
    for (i, place, line) in cases {
        check(
            &rt,
            rt.alloc(),
            &text_with(rt.alloc(), i, line)?,
            Some(place),
        )?;
    }
    Ok(())
}

// A line with which a later one breaks a rule: the lowest order above the highest, by the line of the highest; and the
// highest not below the margin order, by the line of that, which begins a byte later.
#[test]
fn rules_over_lines(rt: HostRuntime) -> Result<(), Fail> {
    check(
        &rt,
        rt.alloc(),
        &text_with(rt.alloc(), 4, "lowest=8")?,
        Some(57),
    )?;
    check(
        &rt,
        rt.alloc(),
        &text_with(rt.alloc(), 5, "highest=10")?,
        Some(86),
    )
}

// Bytes are missing at an end, or follow the last line.
#[test]
fn ends(rt: HostRuntime) -> Result<(), Fail> {
    let mut text = text_with(rt.alloc(), 0, LINES[0])?;
    check(&rt, rt.alloc(), &text, None)?;
    check(&rt, rt.alloc(), b"", Some(0))?;
    check(&rt, rt.alloc(), b"\n", Some(0))?;
    text.push(b'\n')?;
    check(&rt, rt.alloc(), &text, Some(114))?;
    text.push(b'x')?;
    check(&rt, rt.alloc(), &text, Some(114))?;
    text.truncate(113);
    check(&rt, rt.alloc(), &text, Some(101))?;
    text.remove(0);
    check(&rt, rt.alloc(), &text, Some(0))
}
