//! Lines over real files, each with its status and with what it writes and tells. Each test begins in an empty folder.
use super::run;
use crate::asking::{AskedOfFiles, with_inputs};
use hx_base::Refusal;
use hx_real::OutSink;
use std::alloc::{AllocError, Global};
use std::fs;
use std::test::Fail;

// A sink that takes no memory for so few bytes.
fn sink(alloc: Global) -> Result<OutSink<Vec<u8>>, AllocError> {
    Ok(OutSink::new(Vec::with_capacity(alloc, 256)?))
}

#[test]
fn lines_end_with_their_statuses(rt: HostRuntime) -> Result<(), Fail> {
    fs::write(
        &rt,
        "good.csv",
        "id,_healpix_29,cx,cy,cz\n7,0,1000000000,0,0\n",
    )?;
    fs::write(&rt, "bad.csv", "id,_healpix_29,cx,cy,cz\n7,0,0,0,0\n")?;
    let bad = Refusal::BadInput {
        input: 1,
        row: 1,
        why: 8,
    };
    let overfull = Refusal::Overfull { pixel: 0, count: 2 };
    let absent = Refusal::InputFault { input: 1 };
    // A line, its refusal and status, and what stands on each stream.
    let cases: [(&str, Option<Refusal>, u8, &str, &str); 6] = [
        ("histogram 0 good.csv", None, 0, "0,1\n", ""),
        ("around 0 0", None, 0, "1 2 3 4 5 8\n", ""),
        ("histogram 0", Some(Refusal::Usage), 1, "", "usage\n"),
        (
            "histogram 0 good.csv bad.csv",
            Some(bad),
            2,
            "",
            "bad input 1 row 1 why 8\n",
        ),
        (
            "plan --threshold 1 --highest 0 good.csv good.csv",
            Some(overfull),
            3,
            "",
            "overfull pixel 0 count 2\n",
        ),
        (
            "histogram 0 good.csv absent.csv",
            Some(absent),
            6,
            "",
            "input fault 1\n",
        ),
    ];
    let alloc = rt.alloc();
    for (line, refusal, status, text, told) in cases {
        let mut words = Vec::new(alloc);
        for word in line.split_whitespace() {
            words.push(String::from_str(alloc, word)?)?;
        }
        let (mut out, mut errors) = (sink(alloc)?, sink(alloc)?);
        let ended = run(alloc, with_inputs(&rt, alloc, words), &mut out, &mut errors);
        assert_eq!(rt; ended.told, refusal, "{line}");
        assert_eq!(rt; ended.status, status, "{line}");
        assert_eq!(rt; out.writer.as_slice(), text.as_bytes(), "{line}");
        assert_eq!(rt; errors.writer.as_slice(), told.as_bytes(), "{line}");
    }
    fs::remove_file(&rt, "good.csv")?;
    Ok(fs::remove_file(&rt, "bad.csv")?)
}

// A catalogue of one row over its own folder: made, told again by its journal, read as an input, matched with itself,
// cleaned, and then in the way of another import.
#[test]
fn catalogues_stand_in_a_real_folder(rt: HostRuntime) -> Result<(), Fail> {
    fs::write(
        &rt,
        "one.csv",
        "id,_healpix_29,cx,cy,cz\n7,0,1000000000,0,0\n",
    )?;
    let part = "histogram 0 s/dataset/Norder=0/Dir=0/Npix=0.parquet";
    // A line, its refusal and status, and what stands on each stream.
    let cases: [(&str, Option<Refusal>, u8, &str, &str); 7] = [
        (
            "import s one.csv",
            None,
            0,
            "s rows 1 partitions 1 margin 0\n",
            "",
        ),
        (
            "import s one.csv",
            None,
            0,
            "s rows 1 partitions 1 margin 0\n",
            "",
        ),
        (part, None, 0, "0,1\n", ""),
        ("xmatch s s 0 m", None, 0, "s s rows 1 matched 1\n", ""),
        ("clean s", None, 0, "s clean\n", ""),
        (
            "import s one.csv",
            Some(Refusal::NameTaken),
            14,
            "",
            "name taken\n",
        ),
        (
            "xmatch s t 0 m",
            Some(Refusal::NoCatalogue { side: 2 }),
            9,
            "",
            "no catalogue 2\n",
        ),
    ];
    let alloc = rt.alloc();
    for (line, refusal, status, text, told) in cases {
        let mut words = Vec::new(alloc);
        for word in line.split_whitespace() {
            words.push(String::from_str(alloc, word)?)?;
        }
        let (mut out, mut errors) = (sink(alloc)?, sink(alloc)?);
        let ended = run(alloc, with_inputs(&rt, alloc, words), &mut out, &mut errors);
        assert_eq!(rt; ended.told, refusal, "{line}");
        assert_eq!(rt; ended.status, status, "{line}");
        assert_eq!(rt; out.writer.as_slice(), text.as_bytes(), "{line}");
        assert_eq!(rt; errors.writer.as_slice(), told.as_bytes(), "{line}");
    }
    let found = fs::read_to_string(&rt, "m.csv")?;
    assert_eq!(rt;
        found.as_str(),
        "id,_healpix_29,match_id,match_healpix_29,chord2\n7,0,7,0,0\n"
    );
    fs::remove_file(&rt, "one.csv")?;
    fs::remove_file(&rt, "m.csv")?;
    fs::remove_dir_all(&rt, "s")?;
    fs::remove_dir_all(&rt, "s_margin")?;
    Ok(fs::remove_dir_all(&rt, "s.work")?)
}

#[test]
fn words_that_are_not_known(rt: HostRuntime) -> Result<(), Fail> {
    let alloc = rt.alloc();
    let cases = [
        (Refusal::Usage, 1, "usage\n"),
        (Refusal::Memory, 8, "out of memory\n"),
    ];
    for (refusal, status, told) in cases {
        let asked: Result<AskedOfFiles<HostRuntime>, Refusal> = Err(refusal);
        let (mut out, mut errors) = (sink(alloc)?, sink(alloc)?);
        let ended = run(alloc, asked, &mut out, &mut errors);
        assert_eq!(rt; ended.told, Some(refusal));
        assert_eq!(rt; ended.status, status);
        assert_eq!(rt; out.writer.as_slice(), b"".as_slice());
        assert_eq!(rt; errors.writer.as_slice(), told.as_bytes());
    }
    Ok(())
}
