use super::*;
use hx_base::Row;
use std::alloc::{AllocError, Global};
use std::process::Abort;
use std::test::Fail;

// The five columns, as most cases have them, each line with its end.
const FIVE: &[u8] = b"id,_healpix_29,cx,cy,cz\n";

// The same before one that is passed over.
const SIX: &[u8] = b"id,_healpix_29,cx,cy,cz,note\n";

// The five among forty others.
const FORTY_FIVE: &[u8] =
    b"n01,n02,n03,n04,n05,n06,n07,n08,cy,n09,n10,n11,n12,n13,n14,n15,n16,id,n17,n18,n19,n20,n21,n22,n23,n24,cx,n25,n26,n27,n28,n29,n30,n31,n32,_healpix_29,n33,n34,n35,n36,n37,n38,n39,n40,cz\n";

// A and B under that header.
const FORTY_FIVE_A_B: &[u8] =
    b",,,,,,,,0,,,,,,,,,0,,,,,,,,,1000000000,,,,,,,,,7,,,,,,,,,0\n,,,,,,,,-800000000,,,,,,,,,-5,,,,,,,,,600000000,,,,,,,,,3458764513820540927,,,,,,,,,0\n";

const ONE: i32 = 1_000_000_000;

// The row of `0,7,1000000000,0,0` under the five columns.
const A: Row = Row {
    hp: 7,
    id: 0,
    x: ONE,
    y: 0,
    z: 0,
};

const B: Row = Row {
    hp: 3_458_764_513_820_540_927,
    id: -5,
    x: 600_000_000,
    y: -800_000_000,
    z: 0,
};

fn read(alloc: Global, text: &[u8]) -> Result<Vec<Row>, RowRefusal> {
    read_rows(alloc, "a.csv", text)
}

// A header with lines under it reads as these rows, or has its first fault in this row (0 is the header) and
// with this number.
fn check(
    rt: &impl Abort,
    alloc: Global,
    header: &[u8],
    lines: &[u8],
    expected: Result<&[Row], (u64, u8)>,
) -> Result<(), Fail> {
    let mut text = Vec::new(alloc);
    text.extend_from_slice(header)?;
    text.extend_from_slice(lines)?;
    match read(alloc, &text) {
        Ok(rows) => assert_eq!(rt; Ok(rows.as_slice()), expected, "{}", text.escape_ascii()),
        Err(RowRefusal::Bad { row, why }) => {
            assert_eq!(rt; Err((row, why)), expected, "{}", text.escape_ascii());
        }
        Err(refusal) => return Err(refusal)?,
    }
    Ok(())
}

// Each header and lines under it with their rows, or the row and the number of the first fault.
const FILES: [(&[u8], &[u8], Result<&[Row], (u64, u8)>); 51] = [
    // Ends of lines.
    (
        FIVE,
        b"0,7,1000000000,0,0\n-5,3458764513820540927,600000000,-800000000,0\n",
        Ok(&[A, B]),
    ),
    (
        FIVE,
        b"0,7,1000000000,0,0\n-5,3458764513820540927,600000000,-800000000,0",
        Ok(&[A, B]),
    ),
    (
        b"id,_healpix_29,cx,cy,cz\r\n",
        b"0,7,1000000000,0,0\r\n-5,3458764513820540927,600000000,-800000000,0\r\n",
        Ok(&[A, B]),
    ),
    // A carriage return ends a record whether or not a line feed follows (`ends_with`, `AfterCr`).
    (
        b"id,_healpix_29,cx,cy,cz\r",
        b"0,7,1000000000,0,0\r-5,3458764513820540927,600000000,-800000000,0\r",
        Ok(&[A, B]),
    ),
    // Blank lines are no records, also before the header.
    (
        b"\n\r\nid,_healpix_29,cx,cy,cz\n\r",
        b"\n0,7,1000000000,0,0\n\n\r\r\n-5,3458764513820540927,600000000,-800000000,0\n\n\n",
        Ok(&[A, B]),
    ),
    // A header alone.
    (FIVE, b"", Ok(&[])),
    (b"id,_healpix_29,cx,cy,cz", b"", Ok(&[])),
    (FIVE, b"\n\r\n", Ok(&[])),
    // A byte order mark, before a quote too.
    (
        b"\xEF\xBB\xBFid,_healpix_29,cx,cy,cz\n",
        b"0,7,1000000000,0,0\n-5,3458764513820540927,600000000,-800000000,0\n",
        Ok(&[A, B]),
    ),
    (
        b"\xEF\xBB\xBF\"id\",_healpix_29,cx,cy,cz\n",
        b"0,7,1000000000,0,0\n-5,3458764513820540927,600000000,-800000000,0\n",
        Ok(&[A, B]),
    ),
    // Another order. A column that is passed over may have any name, twice too, and any bytes.
    (
        b"cz,n,cy,cx,,_healpix_29,id,n\n",
        b"0,\xFF\xFE,0,1000000000,,7,0,\n0,,-800000000,600000000,m,3458764513820540927,-5,\xC3\n",
        Ok(&[A, B]),
    ),
    (FORTY_FIVE, FORTY_FIVE_A_B, Ok(&[A, B])),
    // Quoted fields.
    (
        b"id,\"_healpix_29\",\"cx\",cy,\"cz\"\n",
        b"\"0\",\"7\",\"1000000000\",\"0\",\"0\"\n-5,3458764513820540927,600000000,\"-800000000\",0\n",
        Ok(&[A, B]),
    ),
    // Within quotes an end of a line, a comma and a doubled quote are the field's own.
    (
        SIX,
        b"0,7,1000000000,0,0,\"a\nb,\r\n\"\"c\"\"\"\n-5,3458764513820540927,600000000,-800000000,0,\"\"\n",
        Ok(&[A, B]),
    ),
    // Behind a closing quote (`AfterQuote`) a byte joins the field as outside quotes, so `"1"0` reads 10.
    (
        FIVE,
        b"\"0\",\"\"7,\"1\"000000000,0,\"\"0\n\"-\"5,3458764513820540927,600000000,\"-8\"00000000,0\n",
        Ok(&[A, B]),
    ),
    // A quote that isn't closed runs to the text's end, which ends the record (`InQuoted`): B is in A's note.
    (
        SIX,
        b"0,7,1000000000,0,0,\"open\n-5,3458764513820540927,600000000,-800000000,0,n\n",
        Ok(&[A]),
    ),
    // So this field is `0`, and with one more line feed it is no number.
    (FIVE, b"0,7,1000000000,0,\"0", Ok(&[A])),
    (FIVE, b"0,7,1000000000,0,\"0\n", Err((1, 7))),
    // And this record has one field.
    (
        FIVE,
        b"0,7,1000000000,0,0\n\"-5,3458764513820540927,600000000,-800000000,0\n",
        Err((2, 2)),
    ),
    // Two quotes make a field, and a comma begins one, at the text's end too.
    (FIVE, b"0,7,1000000000,0,0\n\"\"", Err((2, 2))),
    (FIVE, b"0,7,1000000000,0,0\n0,7,1000000000,0,", Err((2, 7))),
    // Numbers: `-0`, leading zeros, 19 digits, both ends of the ranges.
    (
        FIVE,
        b"-0,0000000000000000007,01000000000,-0,-00\n-05,3458764513820540927,0600000000,-00800000000,000\n",
        Ok(&[A, B]),
    ),
    (
        FIVE,
        b"9223372036854775807,7,1000000000,0,0\n-9223372036854775808,7,1000000000,0,0\n0000000000000000012,7,1000000000,0,0\n-0000000000000000012,7,1000000000,0,0\n",
        Ok(&[
            Row { id: i64::MAX, ..A },
            Row { id: i64::MIN, ..A },
            Row { id: 12, ..A },
            Row { id: -12, ..A },
        ]),
    ),
    (
        FIVE,
        b"0,0,1000000000,0,0\n0,12345678,1000000000,0,0\n0,-0,1000000000,0,0\n",
        Ok(&[
            Row { hp: 0, ..A },
            Row {
                hp: 12_345_678,
                ..A
            },
            Row { hp: 0, ..A },
        ]),
    ),
    // Vectors of about unit length.
    (
        FIVE,
        b"0,7,1000000001,0,0\n0,7,600000000,800000000,0\n0,7,0,-999999998,0\n0,7,0,0,-1000000001\n",
        Ok(&[
            Row {
                x: 1_000_000_001,
                ..A
            },
            Row {
                x: 600_000_000,
                y: 800_000_000,
                ..A
            },
            Row {
                x: 0,
                y: -999_999_998,
                ..A
            },
            Row {
                x: 0,
                z: -1_000_000_001,
                ..A
            },
        ]),
    ),
    // No header record.
    (b"", b"", Err((0, 1))),
    (b"", b"\n\r\n\r", Err((0, 1))),
    (b"\xEF\xBB\xBF", b"", Err((0, 1))),
    // A name missing.
    (b"_healpix_29,cx,cy,cz\n", b"", Err((0, 1))),
    (b"id,cx,cy,cz\n", b"", Err((0, 1))),
    (b"id,_healpix_29,cy,cz\n", b"", Err((0, 1))),
    (b"id,_healpix_29,cx,cz\n", b"", Err((0, 1))),
    (b"id,_healpix_29,cx,cy\n", b"", Err((0, 1))),
    // A name twice.
    (b"id,_healpix_29,cx,cy,cz,id\n", b"", Err((0, 1))),
    (b"id,_healpix_29,cx,cy,cz,_healpix_29\n", b"", Err((0, 1))),
    (b"id,_healpix_29,cx,cy,cz,cx\n", b"", Err((0, 1))),
    (b"id,_healpix_29,cx,cy,cz,cy\n", b"", Err((0, 1))),
    (b"id,_healpix_29,cx,cy,cz,cz\n", b"", Err((0, 1))),
    // Names that are not quite those.
    (b"ID,_healpix_29,cx,cy,cz\n", b"", Err((0, 1))),
    (b"id ,_healpix_29,cx,cy,cz\n", b"", Err((0, 1))),
    (b"id,_healpix_29,cx,cy,cz\0\n", b"", Err((0, 1))),
    // One mark alone is dropped, and at the start alone; another is part of the first name.
    (
        b"\xEF\xBB\xBF\xEF\xBB\xBFid,_healpix_29,cx,cy,cz\n",
        b"",
        Err((0, 1)),
    ),
    (b"\n\xEF\xBB\xBFid,_healpix_29,cx,cy,cz\n", b"", Err((0, 1))),
    // A header of one empty field, and one of one field that is not closed.
    (b"\"\"\nid,_healpix_29,cx,cy,cz\n", b"", Err((0, 1))),
    (
        b"\"id,_healpix_29,cx,cy,cz\n",
        b"0,7,1000000000,0,0\n-5,3458764513820540927,600000000,-800000000,0\n",
        Err((0, 1)),
    ),
    // The first fault by its row, of the header and of rows.
    (b"id,_healpix_29,cx,cy\n", b"0,7\n", Err((0, 1))),
    (FIVE, b"0,7,0,0,0\n0,7\n", Err((1, 8))),
    (
        FIVE,
        b"0,7,1000000000,0,0\n0,7,1000000000,0,x\nx,x,x,x,x\n",
        Err((2, 7)),
    ),
    (
        FIVE,
        b"0,7,1000000000,0,0\n0,7,1000000000,0,0\nx,7,0,0,0\n0,x,0,0,0\n0\n",
        Err((3, 4)),
    ),
    // Rows are counted, and not lines.
    (
        SIX,
        b"\n0,7,1000000000,0,0,\"a\n\nb\"\n\r\n0,7,1000000000,0,0\n",
        Err((2, 2)),
    ),
    (
        FORTY_FIVE,
        b",,,,,,,,0,,,,,,,,,0,,,,,,,,,1000000000,,,,,,,,,7,,,,,,,,,0,\n",
        Err((1, 2)),
    ),
];

// Each line with the number of its first fault.
const BAD_LINES: [(&[u8], u8); 54] = [
    // Another number of fields, which comes before all else.
    (b"0,7,1000000000,0", 2),
    (b"0,7,1000000000,0,0,", 2),
    (b"x,x,x,x", 2),
    // Two quotes alone are one empty field.
    (b"\"\"", 2),
    (b" ", 2),
    (b"# note", 2),
    // Of two faults in one row the first in the order position, id, cx, cy, cz, vector.
    (b"x,x,x,x,x", 3),
    (b"x,7,x,x,x", 4),
    (b"0,7,x,x,x", 5),
    (b"0,7,0,x,x", 6),
    (b"0,7,0,0,x", 7),
    (b"0,7,0,0,0", 8),
    (b",,,,", 3),
    // Positions.
    (b"0,3458764513820540928,1000000000,0,0", 3),
    (b"0,-1,1000000000,0,0", 3),
    (b"0,+7,1000000000,0,0", 3),
    (b"0,00000000000000000007,1000000000,0,0", 3),
    (b"0,7\xFF,1000000000,0,0", 3),
    // A quote within a field that did not begin by one is the field's own.
    (b"0, \"7\",1000000000,0,0", 3),
    (b"0,\"7\" ,1000000000,0,0", 3),
    // Ids: one past both ends, 19 digits and 20.
    (b"9223372036854775808,7,1000000000,0,0", 4),
    (b"-9223372036854775809,7,1000000000,0,0", 4),
    (b"9999999999999999999,7,1000000000,0,0", 4),
    (b"00000000000000000000,7,1000000000,0,0", 4),
    (b"-00000000000000000005,7,1000000000,0,0", 4),
    (b"18446744073709551621,7,1000000000,0,0", 4),
    // No numbers; `/` and `:` stand on both sides of the digits.
    (b",7,1000000000,0,0", 4),
    (b"-,7,1000000000,0,0", 4),
    (b"+5,7,1000000000,0,0", 4),
    (b"--5,7,1000000000,0,0", 4),
    (b" 5,7,1000000000,0,0", 4),
    (b"1.0,7,1000000000,0,0", 4),
    (b"1e3,7,1000000000,0,0", 4),
    (b"\xB5,7,1000000000,0,0", 4),
    (b"123/,7,1000000000,0,0", 4),
    (b":123,7,1000000000,0,0", 4),
    (b"1234567/,7,1000000000,0,0", 4),
    (b"12:45678,7,1000000000,0,0", 4),
    (b"\xB12345678,7,1000000000,0,0", 4),
    // Coordinates: one past both ends, whatever the vector.
    (b"0,7,2000000001,0,0", 5),
    (b"0,7,-2000000001,0,0", 5),
    (b"0,7,4294967296,0,0", 5),
    (b"0,7,0,2000000001,0", 6),
    (b"0,7,0,-2000000001,0", 6),
    (b"0,7,1000000000,0\",0", 6),
    (b"0,7,0,0,2000000001", 7),
    (b"0,7,0,0,-2000000001", 7),
    (b"0,7,1000000000,0,+0", 7),
    // Vectors, each coordinate within its range.
    (b"0,7,2000000000,0,0", 8),
    (b"0,7,-2000000000,0,0", 8),
    (b"0,7,-2000000000,-2000000000,-2000000000", 8),
    (b"0,7,1000000002,0,0", 8),
    (b"0,7,0,999999997,0", 8),
    (b"0,7,1000000000,0,100000", 8),
];

#[test]
fn files(rt: HostRuntime) -> Result<(), Fail> {
    for (header, lines, expected) in FILES {
        check(&rt, rt.alloc(), header, lines, expected)?;
    }
    Ok(())
}

const GOOD: &[u8] = b"0,7,1000000000,0,0";

// Three good lines, one of which this line replaces.
fn among_good(alloc: Global, line: &[u8], place: u64) -> Result<Vec<u8>, AllocError> {
    let mut lines = Vec::new(alloc);
    for row in 1..=3 {
        lines.extend_from_slice(if row == place { line } else { GOOD })?;
        lines.push(b'\n')?;
    }
    Ok(lines)
}

// Each as the first, a middle and the last row.
#[test]
fn bad_lines(rt: HostRuntime) -> Result<(), Fail> {
    for (line, why) in BAD_LINES {
        for row in [1, 2, 3] {
            let lines = among_good(rt.alloc(), line, row)?;
            check(&rt, rt.alloc(), FIVE, &lines, Err((row, why)))?;
        }
    }
    Ok(())
}
