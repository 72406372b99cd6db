use crate::{list_text, read_list};
use hx_base::{Pixel, SpillRefusal};
use std::alloc::{AllocError, Global};
use std::test::Fail;

const fn at(order: u8, number: u64) -> Pixel {
    Pixel { order, number }
}

// So many pixels of order 20, from the first.
fn first_pixels(alloc: Global, count: u64) -> Result<Vec<Pixel>, AllocError> {
    let mut pixels = Vec::new(alloc);
    for number in 0..count {
        pixels.push(at(20, number))?;
    }
    Ok(pixels)
}

#[test]
fn four_partitions(rt: HostRuntime) -> Result<(), Fail> {
    let parts = [at(1, 0), at(1, 1), at(1, 2), at(0, 4)];
    let text = list_text(rt.alloc(), &parts)?;
    assert_eq!(rt;
        text.as_slice(),
        b"Norder,Npix\n1,0\n1,1\n1,2\n0,4\n".as_slice()
    );
    let read = read_list(rt.alloc(), &text);
    assert!(rt; matches!(&read, Ok(pixels) if pixels.as_slice() == parts.as_slice()));
    Ok(())
}

// Each text with how many pixels it lists, or the place of the first line that breaks a rule.
#[test]
fn texts(rt: HostRuntime) -> Result<(), Fail> {
    let cases: [(&str, Result<usize, u64>); 44] = [
        ("Norder,Npix\n", Ok(0)),
        ("Norder,Npix\n0,0\n", Ok(1)),
        ("Norder,Npix\n0,11\n", Ok(1)),
        ("Norder,Npix\n1,3\n0,1\n1,8\n", Ok(3)),
        // The last pixel of the highest order.
        ("Norder,Npix\n20,13194139533311\n", Ok(1)),
        // The header.
        ("", Err(0)),
        ("\n", Err(0)),
        ("Norder,Npix", Err(0)),
        ("norder,Npix\n", Err(0)),
        ("Norder,Npix\r\n", Err(0)),
        ("Npix,Norder\n", Err(0)),
        ("0,0\nNorder,Npix\n", Err(0)),
        ("Norder,Npix\nNorder,Npix\n", Err(12)),
        // The last line is cut, or bytes follow it.
        ("Norder,Npix\n1,0\n1,1\n1,2\n0,4", Err(24)),
        ("Norder,Npix\n1,0\n1,1\n1,2\n0,", Err(24)),
        ("Norder,Npix\n1,0\n1,1\n1,2\n0", Err(24)),
        ("Norder,Npix\n1,0\n\n", Err(16)),
        ("Norder,Npix\n1,0\n ", Err(16)),
        ("Norder,Npix\n\n1,0\n", Err(12)),
        // A line of another form.
        ("Norder,Npix\n1\n", Err(12)),
        ("Norder,Npix\n,1\n", Err(12)),
        ("Norder,Npix\n1,\n", Err(12)),
        ("Norder,Npix\n1;1\n", Err(12)),
        ("Norder,Npix\n1,1,1\n", Err(12)),
        ("Norder,Npix\n1,1\r\n", Err(12)),
        ("Norder,Npix\n 1,1\n", Err(12)),
        ("Norder,Npix\n+1,1\n", Err(12)),
        ("Norder,Npix\n1,-1\n", Err(12)),
        ("Norder,Npix\n1,a\n", Err(12)),
        ("Norder,Npix\n1,0\n01,1\n", Err(16)),
        ("Norder,Npix\n1,0\n1,01\n", Err(16)),
        ("Norder,Npix\n1,00\n", Err(12)),
        // No pixel, or one of too high an order.
        ("Norder,Npix\n0,12\n", Err(12)),
        ("Norder,Npix\n20,13194139533312\n", Err(12)),
        ("Norder,Npix\n21,0\n", Err(12)),
        ("Norder,Npix\n256,0\n", Err(12)),
        ("Norder,Npix\n18446744073709551616,0\n", Err(12)),
        ("Norder,Npix\n0,18446744073709551616\n", Err(12)),
        // Equal pixels, one in another, exchanged ones.
        ("Norder,Npix\n0,1\n0,1\n", Err(16)),
        ("Norder,Npix\n0,1\n1,7\n", Err(16)),
        ("Norder,Npix\n1,7\n0,1\n", Err(16)),
        ("Norder,Npix\n0,2\n0,1\n", Err(16)),
        ("Norder,Npix\n0,0\n0,5\n0,1\n", Err(20)),
        // Of two faults the first counts.
        ("Norder,Npix\n0,0\n0,12\n21,0\n0,12", Err(16)),
    ];
    for (text, want) in cases {
        let read = match read_list(rt.alloc(), text.as_bytes()) {
            Ok(pixels) => Ok(pixels.len()),
            Err(SpillRefusal::Damaged { place }) => Err(place),
            Err(SpillRefusal::Memory) => return Err(Fail::from("no memory")),
        };
        assert_eq!(rt; read, want, "{text:?}");
    }
    Ok(())
}

// A line before the 100001st: the order, a comma and a newline take four bytes, and the numbers 0 to 99999
// 10 + 180 + 2700 + 36000 + 450000 digits.
#[test]
fn most_partitions(rt: HostRuntime) -> Result<(), Fail> {
    let pixels = first_pixels(rt.alloc(), 100_000)?;
    let read = read_list(rt.alloc(), &list_text(rt.alloc(), &pixels)?);
    assert!(rt; matches!(&read, Ok(read) if *read == pixels));
    let pixels = first_pixels(rt.alloc(), 100_001)?;
    let read = read_list(rt.alloc(), &list_text(rt.alloc(), &pixels)?);
    let place = 12 + 400_000 + 488_890;
    assert!(rt; matches!(read, Err(SpillRefusal::Damaged { place: at }) if at == place));
    Ok(())
}
