//! Lines with several inputs.
use super::{ALL, run_over};
use hx_base::Refusal;
use std::test::Fail;

const ONE_ROW: &[u8] = b"id,_healpix_29,cx,cy,cz\n7,0,1000000000,0,0\n";

const TWO_ROWS: &[u8] = b"id,_healpix_29,cx,cy,cz\n7,0,1000000000,0,0\n7,0,1000000000,0,0\n";

const LAST_PIXEL: &[u8] = b"id,_healpix_29,cx,cy,cz\n7,3458764513820540927,1000000000,0,0\n";

const NO_ROWS: &[u8] = b"cz,cy,cx,_healpix_29,id\n";

const BAD_ID: &[u8] = b"id,_healpix_29,cx,cy,cz\n7,0,1000000000,0,0\nx,0,1000000000,0,0\n";

const BAD_HEADER: &[u8] = b"id,cx,cy,cz\n";

#[test]
fn several_inputs(rt: HostRuntime) -> Result<(), Fail> {
    let cases: [(&str, &[&[u8]], Option<Refusal>, &[u8]); 7] = [
        (
            "histogram 0 a.csv b.csv",
            &[TWO_ROWS, ONE_ROW],
            None,
            b"0,3\n",
        ),
        (
            "histogram 0 b.csv a.csv",
            &[ONE_ROW, LAST_PIXEL],
            None,
            b"0,1\n11,1\n",
        ),
        (
            "histogram 0 a.csv a.csv a.csv",
            &[LAST_PIXEL, NO_ROWS, TWO_ROWS],
            None,
            b"0,2\n11,1\n",
        ),
        ("histogram 29 a.csv b.csv", &[NO_ROWS, NO_ROWS], None, b""),
        (
            "histogram 0 a.csv b.csv c.csv",
            &[ONE_ROW, BAD_ID, BAD_HEADER],
            Some(Refusal::BadInput {
                input: 1,
                row: 2,
                why: 4,
            }),
            b"",
        ),
        (
            "histogram 0 a.csv b.csv c.csv",
            &[ONE_ROW, BAD_HEADER, BAD_ID],
            Some(Refusal::BadInput {
                input: 1,
                row: 0,
                why: 1,
            }),
            b"",
        ),
        (
            "histogram 0 a.csv b.csv c.csv",
            &[ONE_ROW, NO_ROWS, BAD_ID],
            Some(Refusal::BadInput {
                input: 2,
                row: 2,
                why: 4,
            }),
            b"",
        ),
    ];
    for (line, contents, refusal, text) in cases {
        let shown = run_over(rt.alloc(), line, contents, ALL, &[], 100)?;
        assert_eq!(rt; shown.refusal, refusal, "{line}");
        assert_eq!(rt; shown.written.as_slice(), text, "{line}");
    }
    Ok(())
}

// Calls are numbered from 0: the length that is checked, the length again, the first read.
#[test]
fn faults_and_bad_inputs(rt: HostRuntime) -> Result<(), Fail> {
    let bad = Refusal::BadInput {
        input: 0,
        row: 2,
        why: 4,
    };
    let cases: [(&[&[u8]], &[&[u64]], Refusal); 5] = [
        // The second input can't be read: the first is bad before it.
        (&[BAD_ID, ONE_ROW], &[&[], &[1]], bad),
        (&[BAD_ID, ONE_ROW], &[&[], &[2]], bad),
        // Its length can't be told: lengths come before rows.
        (
            &[BAD_ID, ONE_ROW],
            &[&[], &[0]],
            Refusal::InputFault { input: 1 },
        ),
        // The first input can't be read, and the second is bad.
        (
            &[ONE_ROW, BAD_ID],
            &[&[2], &[]],
            Refusal::InputFault { input: 0 },
        ),
        // The first can't be read, and the second's length can't be told.
        (
            &[ONE_ROW, ONE_ROW],
            &[&[1], &[0]],
            Refusal::InputFault { input: 1 },
        ),
    ];
    for (contents, failing, refusal) in cases {
        let line = "histogram 0 a.csv b.csv";
        let shown = run_over(rt.alloc(), line, contents, ALL, failing, 100)?;
        assert_eq!(rt; shown.refusal, Some(refusal), "{failing:?}");
        assert_eq!(rt; shown.written.as_slice(), b"".as_slice(), "{failing:?}");
    }
    Ok(())
}
