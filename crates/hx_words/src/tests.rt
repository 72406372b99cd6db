use super::*;
use std::alloc::{AllocError, Global};
use std::test::Fail;

// The words of a line.
fn words_of(alloc: Global, line: &str) -> Result<Vec<String>, AllocError> {
    let mut words = Vec::new(alloc);
    for word in line.split_whitespace() {
        words.push(String::from_str(alloc, word)?)?;
    }
    Ok(words)
}

const fn histogram(order: u8) -> Option<Action> {
    Some(Action::Histogram { order })
}

const fn plan(lowest: u8, highest: u8, threshold: u64) -> Option<Action> {
    Some(Action::Plan {
        lowest,
        highest,
        threshold,
    })
}

const fn around(order: u8, pixel: u64) -> Option<Action> {
    Some(Action::Around { order, pixel })
}

const fn import(lowest: u8, highest: u8, threshold: u64, margin_order: u8) -> Option<Action> {
    Some(Action::Import {
        lowest,
        highest,
        threshold,
        margin_order,
    })
}

const fn xmatch(radius: u64) -> Option<Action> {
    Some(Action::Match { radius })
}

// Each line with what it asks for, and how many words in front of its inputs' names there are.
#[test]
fn requests(rt: HostRuntime) -> Result<(), Fail> {
    let cases = [
        ("histogram 0 a.csv", histogram(0), 2usize),
        ("histogram 29 a.csv b.parquet a.csv", histogram(29), 2),
        ("plan a.csv", plan(0, 7, 1_000_000), 1),
        ("plan --lowest 3 a.csv b.csv", plan(3, 7, 1_000_000), 3),
        ("plan --highest 20 a.csv", plan(0, 20, 1_000_000), 3),
        ("plan --threshold 1 a.parquet", plan(0, 7, 1), 3),
        (
            "plan --threshold 2 --highest 5 --lowest 5 a.csv",
            plan(5, 5, 2),
            7,
        ),
        ("around 0 11", around(0, 11), 3),
        ("import t a.csv", import(0, 7, 1_000_000, 10), 2),
        ("import t a.csv b.parquet", import(0, 7, 1_000_000, 10), 2),
        (
            "import --highest 9 --threshold 5 t a.csv",
            import(0, 9, 5, 10),
            6,
        ),
        (
            "import --margin-order 24 --lowest 20 --highest 20 gaia_dr3 a.csv",
            import(20, 20, 1_000_000, 24),
            8,
        ),
        (
            "import --highest 0 --margin-order 1 0 0.csv",
            import(0, 0, 1_000_000, 1),
            6,
        ),
        ("import plan plan.csv", import(0, 7, 1_000_000, 10), 2),
        ("clean t", Some(Action::Clean), 2),
        ("clean clean", Some(Action::Clean), 2),
        ("xmatch l r 0 o", xmatch(0), 5),
        ("xmatch t t 2000000000 t", xmatch(2_000_000_000), 5),
        ("xmatch xmatch 1 1 1", xmatch(1), 5),
        (
            "around 29 3458764513820540927",
            around(29, 3_458_764_513_820_540_927),
            3,
        ),
    ];
    for (line, action, files) in cases {
        let words = words_of(rt.alloc(), line)?;
        let request = request_of(&words);
        assert_eq!(rt; request.map(|request| request.action), action, "{line}");
        assert_eq!(rt; request.map(|request| request.files), Some(files), "{line}");
        let names = input_names(rt.alloc(), &words)?;
        assert_eq!(rt; names.as_slice(), &words[files..], "{line}");
    }
    Ok(())
}

#[test]
fn lines_without_a_meaning(rt: HostRuntime) -> Result<(), Fail> {
    let lines = [
        "",
        "histogram",
        "histogram 0",
        "histogram 30 a.csv",
        "histogram 00 a.csv",
        "histogram 01 a.csv",
        "histogram +1 a.csv",
        "histogram -1 a.csv",
        "histogram 0 a.csv b.txt",
        "histogram 0 a.csv -b.csv",
        "histogram a.csv",
        "histogram 0 a.txt",
        "histogram 0 a.parquets",
        "histogram 0 -a.csv",
        "histogram --x 0 a.csv",
        "-h",
        "around 0",
        "around 0 12",
        "around 30 0",
        "around 1 48",
        "around 29 3458764513820540928",
        "around 0 0 0",
        "around 00 0",
        "around 0 -1",
        "around 0 a.csv",
        "plan",
        "plan 0 a.csv",
        "plan a.txt",
        "plan a.csv --highest 1",
        "plan --highest 1",
        "plan --highest a.csv",
        "plan --highest",
        "plan --highest 1 --highest 1 a.csv",
        "plan --lowest 1 --highest 1 --lowest 1 a.csv",
        "plan --lowest 8 a.csv",
        "plan --lowest 2 --highest 1 a.csv",
        "plan --highest 21 a.csv",
        "plan --lowest 21 --highest 21 a.csv",
        "plan --threshold 0 a.csv",
        "plan --threshold 1000001 a.csv",
        "plan --threshold 18446744073709551616 a.csv",
        "plan --threshold -1 a.csv",
        "plan --threshold +1 a.csv",
        "plan --threshold 01 a.csv",
        "plan --highest=1 a.csv",
        "plan --x 1 a.csv",
        "plan -- a.csv",
        "plan --Lowest 1 a.csv",
        "Plan a.csv",
        "plan --margin-order 10 a.csv",
        "plan --lowest 1 --margin-order 10 a.csv",
        "plan --margin-order",
        "histogram --highest 1 0 a.csv",
        "around --highest 1 0 0",
        "plan --workers 1 a.csv",
        "import",
        "import t",
        "import a.csv",
        "import t a.txt",
        "import T a.csv",
        "import a.csv a.csv",
        "import t_margin a.csv",
        "import t/u a.csv",
        "import abcdefghijklmnopqrstuvwxyz0123456 a.csv",
        "import t --highest 1 a.csv",
        "import t a.csv --highest 1",
        "import --highest 10 t a.csv",
        "import --highest 9 --margin-order 9 t a.csv",
        "import --lowest 8 t a.csv",
        "import --margin-order 25 t a.csv",
        "import --margin-order 10 --margin-order 10 t a.csv",
        "import --threshold 0 t a.csv",
        "import --workers 1 t a.csv",
        "clean",
        "clean t u",
        "clean T",
        "clean t_margin",
        "clean -t",
        "clean --workers 1 t",
        "xmatch",
        "xmatch l r 1",
        "xmatch l r 1 o o",
        "xmatch l r o 1",
        "xmatch l r 2000000001 o",
        "xmatch l r 18446744073709551616 o",
        "xmatch l r 01 o",
        "xmatch l r +1 o",
        "xmatch l r -1 o",
        "xmatch l r 1 o.csv",
        "xmatch L r 1 o",
        "xmatch l r_margin 1 o",
        "xmatch l r 1 o_margin",
        "xmatch --workers 1 l r 1 o",
        "xmatch l r 1 o --workers 1",
        "Xmatch l r 1 o",
        "match l r 1 o",
    ];
    for line in lines {
        let words = words_of(rt.alloc(), line)?;
        assert_eq!(rt; request_of(&words), None, "{line}");
        let names = input_names(rt.alloc(), &words)?;
        assert!(rt; names.is_empty(), "{line}");
    }
    Ok(())
}
