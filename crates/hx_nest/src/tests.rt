//! Worked examples, and the plain program of touching: it compares the corner points of two pixels.
ghost use Rattle.std.specs.Prelude.{◌≡◌, ◌*◌, ◌^◌, ◌<◌, ◌≤◌};
ghost use Rattle.hx_base.specs.Touching.{corner_point};

use super::*;
use std::process::Abort;

// The point of corner (x, y) of a face: its ring, and its index on the ring.
fn point(n: u64, face: u64, x: u64, y: u64) -> (u64, u64)
    requires n { n ≤ 2 ^ 29 }
    requires face { face < 12 }
    requires x { x ≤ n }
    requires y { y ≤ n }
    ensures { result ≡ corner_point n face x y }
{
    let ring = (2 + face / 4) * n - x - y;
    let index = if ring == 0 || ring == 4 * n {
        0
    } else if ring < n {
        (face * ring + (n - y)) % (4 * ring)
    } else if 3 * n < ring {
        (face.saturating_sub(8) * (4 * n - ring) + x) % (4 * (4 * n - ring))
    } else {
        let middle = 2 * (face % 4) + (face / 4 + 1) % 2;
        (middle * n + 8 * n + x - y) % (8 * n)
    };
    (ring, index)
}

// Whether a point is a corner of a pixel.
fn has_corner(n: u64, at: FaceXy, corner: (u64, u64)) -> bool
    requires n { n ≤ 2 ^ 29 }
    requires face { at.face < 12 }
    requires x { at.x < n }
    requires y { at.y < n }
{
    for i in 0..2 {
        for j in 0..2 {
            let other = point(
                n,
                u64::from(at.face),
                u64::from(at.x) + i,
                u64::from(at.y) + j,
            );
            if other.0 == corner.0 && other.1 == corner.1 {
                return true;
            }
        }
    }
    false
}

// Whether two spots on faces of n * n pixels are different and have a corner in common.
fn plainly_touch(n: u64, a: FaceXy, b: FaceXy) -> bool
    requires n { n ≤ 2 ^ 29 }
    requires left_face { a.face < 12 }
    requires left_x { a.x < n }
    requires left_y { a.y < n }
    requires right_face { b.face < 12 }
    requires right_x { b.x < n }
    requires right_y { b.y < n }
{
    if a == b {
        return false;
    }
    for i in 0..2 {
        for j in 0..2 {
            let corner = point(n, u64::from(a.face), u64::from(a.x) + i, u64::from(a.y) + j);
            if has_corner(n, b, corner) {
                return true;
            }
        }
    }
    false
}

// Whether the calls and the plain program agree on two pixels.
fn agree(k: u8, p: u64, q: u64) -> bool
    requires order { k ≤ 29 }
    requires left { p < 12 * 4 ^ k }
    requires right { q < 12 * 4 ^ k }
{
    let plain = plainly_touch(1 << k, split(k, p), split(k, q));
    plain == touch(k, p, q) && plain == neighbours(k, p).contains(q)
}

fn is_made_of(around: &Around, wanted: &[u64]) -> bool {
    if around.count() as usize != wanted.len() {
        return false;
    }
    for i in 0..around.count() {
        if around.get(i) != wanted[i as usize] {
            return false;
        }
    }
    true
}

#[test]
fn worked_neighbours(rt: HostRuntime) {
    assert!(rt; is_made_of(&neighbours(0, 0), &[1, 2, 3, 4, 5, 8]));
    assert!(rt; is_made_of(&neighbours(0, 4), &[0, 3, 5, 7, 8, 11]));
    assert!(rt; is_made_of(&neighbours(1, 3), &[0, 1, 2, 6, 7, 11, 13, 15]));
    assert!(rt; is_made_of(&neighbours(1, 0), &[1, 2, 3, 17, 19, 22, 23, 35]));
    assert!(rt; is_made_of(&neighbours(1, 1), &[0, 2, 3, 6, 7, 22, 23]));
}

fn check_all(rt: &impl Abort, k: u8, pixels: u64)
    requires order { k ≤ 29 }
    requires pixels { pixels ≡ 12 * 4 ^ k }
{
    for p in 0..pixels {
        let count = neighbours(k, p).count();
        assert!(rt;
            if k == 0 {
                count == 6
            } else {
                count == 7 || count == 8
            }
        );
        for q in 0..pixels {
            assert!(rt; agree(k, p, q), "{p} and {q} of order {k}");
        }
    }
}

#[test]
fn low_orders_agree_with_the_plain_program(rt: HostRuntime) {
    check_all(&rt, 0, 12);
    check_all(&rt, 1, 48);
    check_all(&rt, 2, 192);
}

// The neighbours of a pixel of order 29, and theirs.
fn check_deep(rt: &impl Abort, face: u8, x: u32, y: u32)
    requires face { face < 12 }
    requires x { x < 2 ^ 29 }
    requires y { y < 2 ^ 29 }
{
    let p = join_xy(29, FaceXy { face, x, y });
    let around = neighbours(29, p);
    assert!(rt; around.count() == 7 || around.count() == 8);
    for i in 0..around.count() {
        let q = around.get(i);
        assert!(rt; q < 12 << 58);
        assert!(rt; agree(29, p, q), "{p} and {q}");
        let further = neighbours(29, q);
        for j in 0..further.count() {
            let r = further.get(j);
            assert!(rt; r < 12 << 58);
            assert!(rt; agree(29, p, r), "{p} and {r}");
        }
    }
}

#[test]
fn borders_of_order_29_agree_with_the_plain_program(rt: HostRuntime) {
    const LAST: u32 = 536870911;
    for face in 0..12 {
        check_deep(&rt, face, 0, 0);
        check_deep(&rt, face, LAST, LAST);
        check_deep(&rt, face, 0, 77);
        check_deep(&rt, face, 1000, 0);
        check_deep(&rt, face, LAST, 5);
        check_deep(&rt, face, 123456789, LAST);
    }
}

fn check_place(rt: &impl Abort, k: u8, at: FaceXy, p: u64)
    requires order { k ≤ 29 }
    requires face { at.face < 12 }
    requires x { at.x < 2 ^ k }
    requires y { at.y < 2 ^ k }
    requires pixel { p < 12 * 4 ^ k }
{
    assert_eq!(rt; join_xy(k, at), p);
    assert_eq!(rt; split(k, p), at);
}

#[test]
fn places_and_numbers(rt: HostRuntime) {
    const LAST: u32 = 536870911;
    check_place(
        &rt,
        0,
        FaceXy {
            face: 11,
            x: 0,
            y: 0,
        },
        11,
    );
    check_place(
        &rt,
        1,
        FaceXy {
            face: 0,
            x: 1,
            y: 0,
        },
        1,
    );
    check_place(
        &rt,
        1,
        FaceXy {
            face: 2,
            x: 0,
            y: 1,
        },
        10,
    );
    check_place(
        &rt,
        2,
        FaceXy {
            face: 1,
            x: 3,
            y: 1,
        },
        23,
    );
    check_place(
        &rt,
        29,
        FaceXy {
            face: 0,
            x: LAST,
            y: 0,
        },
        96076792050570581,
    );
    check_place(
        &rt,
        29,
        FaceXy {
            face: 0,
            x: 0,
            y: LAST,
        },
        192153584101141162,
    );
    check_place(
        &rt,
        29,
        FaceXy {
            face: 11,
            x: LAST,
            y: LAST,
        },
        3458764513820540927,
    );
}

#[test]
fn other_orders(rt: HostRuntime) {
    assert_eq!(rt; parent(23), 5);
    assert_eq!(rt; first_child(5), 20);
    assert_eq!(rt; first_child((12 << 56) - 1), (12 << 58) - 4);
    assert_eq!(rt; at_order((12 << 58) - 1, 0), 11);
    assert_eq!(rt; at_order((12 << 58) - 1, 29), (12 << 58) - 1);
    assert_eq!(rt; at_order(3 << 56, 1), 3);
}
