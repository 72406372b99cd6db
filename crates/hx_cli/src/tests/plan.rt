//! The command `plan`. Positions of order 29 are counted by hand: 4^28 of them lie in a pixel of order 1.
use super::{ALL, Shown, run_over};
use hx_base::Refusal;
use std::alloc::{AllocError, Global};
use std::fmt::Write;
use std::test::Fail;

// A CSV input of rows at these positions.
fn csv_at(alloc: Global, positions: &[u64]) -> Result<String, AllocError> {
    let mut text = String::from_str(alloc, "id,_healpix_29,cx,cy,cz\n")?;
    for position in positions {
        text.push_str("1,")?;
        write!(text, "{position}").map_err(|_| AllocError)?;
        text.push_str(",1000000000,0,0\n")?;
    }
    Ok(text)
}

fn run(alloc: Global, line: &str, positions: &[u64]) -> Result<Shown, AllocError> {
    let text = csv_at(alloc, positions)?;
    run_over(alloc, line, &[text.as_bytes()], ALL, &[], 2_000_000)
}

// The order-1 pixels 0, 1, 2, 16 and 16.
const FIVE: &[u64] = &[
    0,
    72_057_594_037_927_936,
    144_115_188_075_855_872,
    1_152_921_504_606_846_976,
    1_152_921_504_606_846_976,
];

#[test]
fn plans(rt: HostRuntime) -> Result<(), Fail> {
    let cases: [(&str, &[u64], &[u8]); 14] = [
        (
            "plan --highest 1 --threshold 2 a.csv",
            FIVE,
            b"1,0,1\n1,1,1\n1,2,1\n0,4,2\n",
        ),
        (
            "plan --threshold 2 --highest 1 --lowest 0 a.csv",
            FIVE,
            b"1,0,1\n1,1,1\n1,2,1\n0,4,2\n",
        ),
        ("plan --highest 1 --threshold 2 a.csv", &[0, 5], b"0,0,2\n"),
        ("plan a.csv", FIVE, b"0,0,3\n0,4,2\n"),
        ("plan a.csv", &[], b""),
        // The lowest order is the highest one.
        (
            "plan --lowest 1 --highest 1 a.csv",
            FIVE,
            b"1,0,1\n1,1,1\n1,2,1\n1,16,2\n",
        ),
        // A pixel with few rows isn't joined above the lowest order.
        ("plan --lowest 2 a.csv", &[0], b"2,0,1\n"),
        ("plan --lowest 0 --highest 0 a.csv", FIVE, b"0,0,3\n0,4,2\n"),
        // A count at the threshold, and one above it, at each order.
        (
            "plan --highest 2 --threshold 3 a.csv",
            FIVE,
            b"0,0,3\n0,4,2\n",
        ),
        (
            "plan --highest 2 --threshold 2 a.csv",
            FIVE,
            b"1,0,1\n1,1,1\n1,2,1\n0,4,2\n",
        ),
        (
            "plan --highest 2 --threshold 1 a.csv",
            &[0, 18_014_398_509_481_984, 1_152_921_504_606_846_976],
            b"2,0,1\n2,1,1\n0,4,1\n",
        ),
        (
            "plan --highest 2 --threshold 2 a.csv",
            &[0, 0, 18_014_398_509_481_984],
            b"2,0,2\n2,1,1\n",
        ),
        (
            "plan --highest 20 --threshold 1 a.csv",
            &[0, 262_144],
            b"20,0,1\n20,1,1\n",
        ),
        (
            "plan --lowest 7 --threshold 1000000 a.csv",
            &[3_458_764_513_820_540_927],
            b"7,196607,1\n",
        ),
    ];
    for (line, positions, text) in cases {
        let shown = run(rt.alloc(), line, positions)?;
        assert_eq!(rt; shown.refusal, None, "{line}");
        assert_eq!(rt; shown.written.as_slice(), text, "{line}");
    }
    Ok(())
}

#[test]
fn overfull_pixels(rt: HostRuntime) -> Result<(), Fail> {
    let cases: [(&str, &[u64], u64, u64); 4] = [
        (
            "plan --highest 1 --threshold 2 a.csv",
            &[
                0,
                0,
                0,
                72_057_594_037_927_936,
                144_115_188_075_855_872,
                1_152_921_504_606_846_976,
                1_152_921_504_606_846_976,
            ],
            0,
            3,
        ),
        // Of two overfull pixels the least is named.
        ("plan --highest 1 --threshold 1 a.csv", FIVE, 16, 2),
        (
            "plan --highest 0 --threshold 1 a.csv",
            &[1_152_921_504_606_846_976, 0, 5, 1_152_921_504_606_846_977],
            0,
            2,
        ),
        (
            "plan --lowest 2 --highest 2 --threshold 2 a.csv",
            &[
                18_014_398_509_481_984,
                18_014_398_509_481_985,
                18_014_398_509_481_986,
            ],
            1,
            3,
        ),
    ];
    for (line, positions, pixel, count) in cases {
        let shown = run(rt.alloc(), line, positions)?;
        assert_eq!(rt;
            shown.refusal,
            Some(Refusal::Overfull { pixel, count }),
            "{line}"
        );
        assert_eq!(rt; shown.status, 3, "{line}");
        assert_eq!(rt; shown.written.as_slice(), b"".as_slice(), "{line}");
    }
    Ok(())
}

// Positions that lie each in an order-9 pixel of its own, from one of these pixels to another.
fn apart(alloc: Global, first: u64, end: u64) -> Result<Vec<u64>, AllocError> {
    let mut positions = Vec::new(alloc);
    for number in first..end {
        positions.push(number.saturating_mul(1 << 40))?;
    }
    Ok(positions)
}

#[test]
fn too_many_partitions(rt: HostRuntime) -> Result<(), Fail> {
    let line = "plan --lowest 9 --highest 9 --threshold 1 a.csv";
    let positions = apart(rt.alloc(), 0, 100_001)?;
    let shown = run(rt.alloc(), line, positions.as_slice())?;
    let refusal = Refusal::TooMany {
        what: 3,
        found: 100_001,
        limit: 100_000,
    };
    assert_eq!(rt; shown.refusal, Some(refusal));
    assert_eq!(rt; shown.status, 13);
    assert_eq!(rt; shown.written.as_slice(), b"".as_slice());
    // One row fewer gives a line for each.
    let positions = apart(rt.alloc(), 1, 100_001)?;
    let shown = run(rt.alloc(), line, positions.as_slice())?;
    assert_eq!(rt; shown.refusal, None);
    assert_eq!(rt;
        shown.written.iter().filter(|byte| **byte == b'\n').count(),
        100_000
    );
    assert!(rt; shown.written.starts_with(b"9,1,1\n9,2,1\n"));
    assert!(rt; shown.written.ends_with(b"9,99999,1\n9,100000,1\n"));
    Ok(())
}

#[test]
fn plans_of_several_inputs(rt: HostRuntime) -> Result<(), Fail> {
    let alloc = rt.alloc();
    let first = csv_at(alloc, &FIVE[..3])?;
    let second = csv_at(alloc, &FIVE[3..])?;
    let both = [first.as_bytes(), second.as_bytes()];
    let line = "plan --highest 1 --threshold 2 a.csv b.csv";
    let shown = run_over(alloc, line, &both, ALL, &[], 100)?;
    assert_eq!(rt; shown.refusal, None);
    assert_eq!(rt;
        shown.written.as_slice(),
        b"1,0,1\n1,1,1\n1,2,1\n0,4,2\n".as_slice()
    );
    // A pixel is overfull by the rows of all inputs together.
    let line = "plan --highest 0 --threshold 2 a.csv b.csv c.csv";
    let shown = run_over(alloc, line, &[b"", b"", b""], ALL, &[], 100)?;
    let refusal = Refusal::BadInput {
        input: 0,
        row: 0,
        why: 1,
    };
    assert_eq!(rt; shown.refusal, Some(refusal));
    let all = [second.as_bytes(), second.as_bytes(), first.as_bytes()];
    let shown = run_over(alloc, line, &all, ALL, &[], 100)?;
    assert_eq!(rt;
        shown.refusal,
        Some(Refusal::Overfull { pixel: 0, count: 3 })
    );
    Ok(())
}
