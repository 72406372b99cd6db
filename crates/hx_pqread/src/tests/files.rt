//! Files with several leaves, row groups and pages. A page of one number of 8 bytes takes 25 bytes, 17 of them its header.
use super::making::{CHUNK, Chunk, Group, Leaf, Page, file};
use super::{Expected, check};
use hx_pqmeta::PqRefusal;
use std::test::Fail;

const A: Leaf = Leaf("a", Some(2), 0);

const B: Leaf = Leaf("b", Some(1), 1);

const C: Leaf = Leaf("c", Some(2), 1);

const BOUNDS: Expected = Err(PqRefusal::Bounds { column: 0 });

const NO_COLUMN: Expected = Err(PqRefusal::Column { column: 0 });

// Pages of `a`.
const SEVEN: Page = Page {
    values: 1,
    body: b"\x07\0\0\0\0\0\0\0",
    sizes: None,
};

const NINE: Page = Page {
    values: 1,
    body: b"\x09\0\0\0\0\0\0\0",
    sizes: None,
};

const FIVE_AND_SIX: Page = Page {
    values: 2,
    body: b"\x05\0\0\0\0\0\0\0\x06\0\0\0\0\0\0\0",
    sizes: None,
};

const NONE: Page = Page {
    values: 0,
    body: b"",
    sizes: None,
};

// Four numbers, whose bytes begin with those of the page of 7.
const PAGE_IN_A_PAGE: Page = Page {
    values: 4,
    body: b"\x15\0\x15\x10\x15\x10\x2c\x15\x02\x15\0\x15\x06\x15\x06\0\0\x07\0\0\0\0\0\0\0\0\0\0\0\0\0\0",
    sizes: None,
};

// A page of a negative number of values.
const BAD: Page = Page {
    values: -1,
    body: b"",
    sizes: None,
};

const ONE: Chunk<'static> = Chunk {
    pages: &[SEVEN],
    ..CHUNK
};

// The pages of `a` in a row group of so many rows.
const PAGES: [(i64, &[Page], Expected); 10] = [
    (1, &[SEVEN], Ok(&[&[7]])),
    (4, &[NINE, FIVE_AND_SIX, SEVEN], Ok(&[&[9, 5, 6, 7]])),
    // Pages of no values.
    (2, &[NONE, NINE, NONE, NONE, SEVEN], Ok(&[&[9, 7]])),
    // What stands behind the last value isn't read.
    (1, &[NINE, BAD], Ok(&[&[9]])),
    (0, &[BAD], Ok(&[&[]])),
    // A value is to come, and the footer stands there.
    (2, &[SEVEN], BOUNDS),
    (1, &[NONE], BOUNDS),
    // More values than those that are to come, and fewer than none.
    (1, &[FIVE_AND_SIX], BOUNDS),
    (2, &[SEVEN, FIVE_AND_SIX], BOUNDS),
    (1, &[BAD], BOUNDS),
];

#[test]
fn pages(rt: HostRuntime) -> Result<(), Fail> {
    for (rows, pages, expected) in PAGES {
        let chunk = Chunk { pages, ..CHUNK };
        let file = file(rt.alloc(), &[A], &[Group(rows, &[chunk])])?;
        check(&rt, rt.alloc(), &file, &["a"], expected)?;
    }
    Ok(())
}

// The sizes of a page of eight bytes before and after compression.
const SIZES: [(i64, i64, Expected); 6] = [
    (8, 8, Ok(&[&[7]])),
    (9, 8, BOUNDS),
    (8, 9, BOUNDS),
    (-8, -8, BOUNDS),
    (4, 4, BOUNDS),
    // Past the footer's start.
    (9, 9, BOUNDS),
];

#[test]
fn sizes(rt: HostRuntime) -> Result<(), Fail> {
    for (plain_size, stored_size, expected) in SIZES {
        let page = Page {
            sizes: Some((plain_size, stored_size)),
            ..SEVEN
        };
        let chunk = Chunk {
            pages: &[page],
            ..CHUNK
        };
        let file = file(rt.alloc(), &[A], &[Group(1, &[chunk])])?;
        check(&rt, rt.alloc(), &file, &["a"], expected)?;
    }
    Ok(())
}

// The place of the first page, where one page stands at 4 and the footer at 29. The last byte of the page is that of
// a header without fields.
const PLACES: [(i64, Expected); 10] = [
    (4, Ok(&[&[7]])),
    (3, BOUNDS),
    (0, BOUNDS),
    (-1, BOUNDS),
    (i64::MIN, BOUNDS),
    (28, Err(PqRefusal::Missing { field: 601 })),
    (29, BOUNDS),
    (30, BOUNDS),
    (1000, BOUNDS),
    (i64::MAX, BOUNDS),
];

#[test]
fn places(rt: HostRuntime) -> Result<(), Fail> {
    for (place, expected) in PLACES {
        let chunk = Chunk {
            place: Some(place),
            ..ONE
        };
        let file = file(rt.alloc(), &[A], &[Group(1, &[chunk])])?;
        check(&rt, rt.alloc(), &file, &["a"], expected)?;
    }
    Ok(())
}

// A page whose last byte is that of a field's header, and what is read there.
#[test]
fn header_cut_short(rt: HostRuntime) -> Result<(), Fail> {
    let page = Page {
        values: 1,
        body: b"\0\0\0\0\0\0\0\x15",
        sizes: None,
    };
    let chunk = Chunk {
        pages: &[page],
        place: Some(28),
        ..CHUNK
    };
    let file = file(rt.alloc(), &[A], &[Group(1, &[chunk])])?;
    check(
        &rt,
        rt.alloc(),
        &file,
        &["a"],
        Err(PqRefusal::Thrift { at: 29 }),
    )
}

// A chunk's codec, the place of its dictionary, its number of values, whether it is in another file.
const FIELDS: [(i64, Option<i64>, Option<i64>, bool, Expected); 12] = [
    (0, None, None, false, Ok(&[&[7]])),
    (0, Some(0), Some(1), false, Ok(&[&[7]])),
    (0, Some(-4), None, false, Ok(&[&[7]])),
    (0, None, None, true, BOUNDS),
    (1, None, None, false, Err(PqRefusal::Codec { column: 0 })),
    (
        0,
        Some(4),
        None,
        false,
        Err(PqRefusal::Encoding { column: 0 }),
    ),
    (0, None, Some(2), false, BOUNDS),
    (0, None, Some(0), false, BOUNDS),
    (0, None, Some(-1), false, BOUNDS),
    // The first of several.
    (
        0,
        Some(4),
        Some(2),
        false,
        Err(PqRefusal::Encoding { column: 0 }),
    ),
    (1, Some(4), None, true, BOUNDS),
    (
        1,
        Some(4),
        Some(2),
        false,
        Err(PqRefusal::Codec { column: 0 }),
    ),
];

#[test]
fn fields_of_a_chunk(rt: HostRuntime) -> Result<(), Fail> {
    for (codec, dictionary_place, values, has_path, expected) in FIELDS {
        let chunk = Chunk {
            codec,
            dictionary_place,
            values,
            has_path,
            ..ONE
        };
        let file = file(rt.alloc(), &[A], &[Group(1, &[chunk])])?;
        check(&rt, rt.alloc(), &file, &["a"], expected)?;
    }
    Ok(())
}

// Chunks whose first page is one of another chunk, and two that are refused.
const AT_4: Chunk<'static> = Chunk {
    place: Some(4),
    ..CHUNK
};

const AT_21: Chunk<'static> = Chunk {
    place: Some(21),
    ..CHUNK
};

const AT_29: Chunk<'static> = Chunk {
    place: Some(29),
    ..CHUNK
};

const TWO: Chunk<'static> = Chunk {
    pages: &[SEVEN, NINE],
    ..CHUNK
};

const LARGE: Chunk<'static> = Chunk {
    pages: &[PAGE_IN_A_PAGE],
    ..CHUNK
};

const BAD_PAGE: Chunk<'static> = Chunk {
    pages: &[BAD],
    ..CHUNK
};

const COMPRESSED: Chunk<'static> = Chunk { codec: 1, ..ONE };

// Row groups of the leaf `a`.
const GROUPS: [(&[Group], Expected); 10] = [
    (&[], Ok(&[&[]])),
    (&[Group(0, &[CHUNK])], Ok(&[&[]])),
    (
        &[Group(1, &[ONE]), Group(0, &[AT_4]), Group(2, &[TWO])],
        Ok(&[&[7, 7, 9]]),
    ),
    // A group without the chunk.
    (&[Group(1, &[ONE]), Group(1, &[])], BOUNDS),
    // A page that is read twice, one that is another's second, one that lies in another.
    (&[Group(1, &[ONE]), Group(1, &[AT_4])], Ok(&[&[7, 7]])),
    (&[Group(2, &[TWO]), Group(1, &[AT_29])], Ok(&[&[7, 9, 9]])),
    (
        &[Group(4, &[LARGE]), Group(1, &[AT_21])],
        Ok(&[&[0x152c_1015_1015_0015, 0x0006_1506_1500_1502, 0x700, 0, 7]]),
    ),
    // The chunks of all groups come before the first page, and pages in their order.
    (
        &[Group(1, &[BAD_PAGE]), Group(1, &[COMPRESSED])],
        Err(PqRefusal::Codec { column: 0 }),
    ),
    (&[Group(2, &[ONE]), Group(1, &[BAD_PAGE])], BOUNDS),
    (
        &[Group(1, &[COMPRESSED]), Group(1, &[])],
        Err(PqRefusal::Codec { column: 0 }),
    ),
];

#[test]
fn groups(rt: HostRuntime) -> Result<(), Fail> {
    for (groups, expected) in GROUPS {
        let file = file(rt.alloc(), &[A], groups)?;
        check(&rt, rt.alloc(), &file, &["a"], expected)?;
    }
    Ok(())
}

// Pages of `c`, whose bodies begin with levels.
const ONE_LEVEL: Page = Page {
    values: 1,
    body: b"\x02\0\0\0\x02\x01\x07\0\0\0\0\0\0\0",
    sizes: None,
};

const NO_LEVELS: Page = Page {
    values: 0,
    body: b"\0\0\0\0",
    sizes: None,
};

const RUBBISH: Page = Page {
    values: 0,
    body: b"\x02\0\0\0\x04\x02",
    sizes: None,
};

// Pages of the leaf `c`, of which some have no values.
const OPTIONAL_PAGES: [(&[Page], Expected); 4] = [
    (&[ONE_LEVEL], Ok(&[&[7]])),
    (&[NO_LEVELS, NO_LEVELS, ONE_LEVEL], Ok(&[&[7]])),
    (&[RUBBISH, ONE_LEVEL], Ok(&[&[7]])),
    (&[NONE, ONE_LEVEL], BOUNDS),
];

#[test]
fn optional_pages(rt: HostRuntime) -> Result<(), Fail> {
    for (pages, expected) in OPTIONAL_PAGES {
        let chunk = Chunk { pages, ..CHUNK };
        let file = file(rt.alloc(), &[C], &[Group(1, &[chunk])])?;
        check(&rt, rt.alloc(), &file, &["c"], expected)?;
    }
    Ok(())
}

// Two rows of `c`, the second of them absent; three, the third of them absent.
const NO_SECOND: Page = Page {
    values: 2,
    body: b"\x02\0\0\0\x03\x01\x07\0\0\0\0\0\0\0",
    sizes: None,
};

const NO_THIRD: Page = Page {
    values: 3,
    body: b"\x04\0\0\0\x04\x01\x02\0\x07\0\0\0\0\0\0\0\x08\0\0\0\0\0\0\0",
    sizes: None,
};

// Chunks of `c`.
const THERE: Chunk<'static> = Chunk {
    pages: &[ONE_LEVEL],
    ..CHUNK
};

const SECOND: Chunk<'static> = Chunk {
    pages: &[NO_SECOND],
    ..CHUNK
};

const THIRD: Chunk<'static> = Chunk {
    pages: &[NO_THIRD],
    ..CHUNK
};

const SECOND_BEHIND_ONE: Chunk<'static> = Chunk {
    pages: &[ONE_LEVEL, NO_SECOND],
    ..CHUNK
};

const THIRD_BEHIND_ONE: Chunk<'static> = Chunk {
    pages: &[ONE_LEVEL, NO_THIRD],
    ..CHUNK
};

const SECOND_AND_THIRD: Chunk<'static> = Chunk {
    pages: &[NO_LEVELS, NO_SECOND, NO_THIRD],
    ..CHUNK
};

// Row groups of the leaf `c`, and the row that is named: rows count over pages and groups, and the first absent one is
// named.
const ABSENT: [(&[Group], u64); 6] = [
    (&[Group(3, &[SECOND_BEHIND_ONE])], 3),
    (&[Group(5, &[SECOND_AND_THIRD])], 2),
    (&[Group(4, &[THIRD_BEHIND_ONE])], 4),
    (&[Group(1, &[THERE]), Group(2, &[SECOND])], 3),
    (
        &[
            Group(1, &[THERE]),
            Group(0, &[CHUNK]),
            Group(4, &[THIRD_BEHIND_ONE]),
        ],
        5,
    ),
    (&[Group(3, &[THIRD]), Group(2, &[SECOND])], 3),
];

#[test]
fn first_absent_row(rt: HostRuntime) -> Result<(), Fail> {
    for (groups, row) in ABSENT {
        let file = file(rt.alloc(), &[C], groups)?;
        let null = Err(PqRefusal::Null { row });
        check(&rt, rt.alloc(), &file, &["c"], null)?;
    }
    Ok(())
}

// Five columns that share one page, whose levels are one run of absent ones: 5 of them, 2^27 and 2^31 - 1.
const SHARED: [(i64, &'static [u8]); 3] = [
    (5, b"\x02\0\0\0\x0a\0"),
    (1 << 27, b"\x06\0\0\0\x80\x80\x80\x80\x01\0"),
    (2147483647, b"\x06\0\0\0\xfe\xff\xff\xff\x0f\0"),
];

const FIVE: [Leaf; 5] = [
    Leaf("_healpix_29", Some(2), 1),
    Leaf("id", Some(2), 1),
    Leaf("cx", Some(2), 1),
    Leaf("cy", Some(2), 1),
    Leaf("cz", Some(2), 1),
];

#[test]
fn shared_page(rt: HostRuntime) -> Result<(), Fail> {
    for (rows, body) in SHARED {
        let page = Page {
            values: rows,
            body,
            sizes: None,
        };
        let first = Chunk {
            pages: &[page],
            ..CHUNK
        };
        let chunks = [first, AT_4, AT_4, AT_4, AT_4];
        let file = file(rt.alloc(), &FIVE, &[Group(rows, &chunks)])?;
        let null = Err(PqRefusal::Null { row: 1 });
        let names = ["_healpix_29", "id", "cx", "cy", "cz"];
        check(&rt, rt.alloc(), &file, &names, null)?;
    }
    Ok(())
}

// Leaves, each with a chunk of one value, and what `a` reads as.
const LEAVES: [(&[Leaf], Expected); 11] = [
    (&[A, B], Ok(&[&[7]])),
    (&[B, A], Ok(&[&[7]])),
    (&[], NO_COLUMN),
    (&[B, C], NO_COLUMN),
    (&[Leaf("ab", Some(2), 0), Leaf("", Some(2), 0)], NO_COLUMN),
    // The name twice, once as a leaf that isn't read.
    (&[A, A], NO_COLUMN),
    (&[A, Leaf("a", None, 0)], NO_COLUMN),
    // No type, DOUBLE, BYTE_ARRAY, and a type that there isn't.
    (&[Leaf("a", None, 0)], NO_COLUMN),
    (&[Leaf("a", Some(5), 0)], NO_COLUMN),
    (&[B, Leaf("a", Some(6), 0)], NO_COLUMN),
    (&[Leaf("a", Some(-1), 0)], NO_COLUMN),
];

#[test]
fn leaves(rt: HostRuntime) -> Result<(), Fail> {
    for (leaves, expected) in LEAVES {
        let file = file(rt.alloc(), leaves, &[Group(1, &[ONE, ONE])])?;
        check(&rt, rt.alloc(), &file, &["a"], expected)?;
    }
    Ok(())
}

// Three rows of `b`, the last of them absent, and three of `c`, the first of them absent.
const NO_LAST: Page = Page {
    values: 3,
    body: b"\x02\0\0\0\x03\x03\x01\0\0\0\x02\0\0\0",
    sizes: None,
};

const NO_FIRST: Page = Page {
    values: 3,
    body: b"\x02\0\0\0\x03\x06\x02\0\0\0\0\0\0\0\x03\0\0\0\0\0\0\0",
    sizes: None,
};

const THREE: Page = Page {
    values: 3,
    body: b"\x07\0\0\0\0\0\0\0\x08\0\0\0\0\0\0\0\x09\0\0\0\0\0\0\0",
    sizes: None,
};

// Names that are asked for, of three rows, and what is read.
const ASKED: [(&[&str], Expected); 12] = [
    (&[], Ok(&[])),
    (&["a"], Ok(&[&[7, 8, 9]])),
    (&["a", "a"], Ok(&[&[7, 8, 9], &[7, 8, 9]])),
    // The least row in which a column has no value, whichever column that is.
    (&["a", "b"], Err(PqRefusal::Null { row: 3 })),
    (&["a", "b", "c"], Err(PqRefusal::Null { row: 1 })),
    (&["c", "b"], Err(PqRefusal::Null { row: 1 })),
    // Every other refusal comes before an absent value, and by its name's place.
    (&["b", "d"], Err(PqRefusal::Column { column: 1 })),
    (&["d", "b"], Err(PqRefusal::Column { column: 0 })),
    (&["c", "e", "d"], Err(PqRefusal::Codec { column: 1 })),
    (&["a", "f", "e"], Err(PqRefusal::Bounds { column: 1 })),
    (&["f", "d"], Err(PqRefusal::Bounds { column: 0 })),
    (&["a", "", "b"], Err(PqRefusal::Column { column: 1 })),
];

#[test]
fn asked(rt: HostRuntime) -> Result<(), Fail> {
    let leaves = [A, B, C, Leaf("e", Some(2), 0), Leaf("f", Some(2), 0)];
    let chunks = [
        Chunk {
            pages: &[THREE],
            ..CHUNK
        },
        Chunk {
            pages: &[NO_LAST],
            ..CHUNK
        },
        Chunk {
            pages: &[NO_FIRST],
            ..CHUNK
        },
        Chunk {
            pages: &[THREE],
            codec: 1,
            ..CHUNK
        },
        Chunk {
            pages: &[SEVEN],
            ..CHUNK
        },
    ];
    let file = file(rt.alloc(), &leaves, &[Group(3, &chunks)])?;
    for (names, expected) in ASKED {
        check(&rt, rt.alloc(), &file, names, expected)?;
    }
    Ok(())
}
