//! The command `around`.
use super::{ALL, run_over};
use std::test::Fail;

#[test]
fn pixels_round_a_pixel(rt: HostRuntime) -> Result<(), Fail> {
    let cases: [(&str, &[u8]); 6] = [
        ("around 0 0", b"1 2 3 4 5 8\n"),
        ("around 0 4", b"0 3 5 7 8 11\n"),
        ("around 1 3", b"0 1 2 6 7 11 13 15\n"),
        ("around 1 0", b"1 2 3 17 19 22 23 35\n"),
        ("around 1 1", b"0 2 3 6 7 22 23\n"),
        // Inside a face: the pixels at (0, 0) to (2, 2) round (1, 1).
        ("around 2 3", b"0 1 2 4 6 8 9 12\n"),
    ];
    for (line, text) in cases {
        let shown = run_over(rt.alloc(), line, &[], ALL, &[], 200)?;
        assert_eq!(rt; shown.refusal, None, "{line}");
        assert_eq!(rt; shown.written.as_slice(), text, "{line}");
    }
    Ok(())
}
