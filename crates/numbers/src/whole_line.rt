// The whole-number line through two points, its exact value rounded to nearest, halves away from zero.
ghost use Rattle.std.specs.Prelude.{◌≡◌, ◌<◌, ◌≤◌, ◌+◌, ◌-◌, ◌*◌, pos, ◌+ℤ◌, ◌-ℤ◌};
ghost use Rattle.numbers.specs.Limit.{limit_whole};
ghost use Rattle.numbers.specs.Line.{nearest, line_at};

use crate::signed::signed;

#[derive(Clone, Copy)]
pub struct Point {
    pub x: i16,
    pub y: i16,
}

// Counted from -32768, so that what is done with it is unsigned.
fn raise(v: i16) -> u32
    ensures { (pos result ≡ v +ℤ pos 32768) × (result < 65536) }
{
    (i32::from(v) + 32768).cast_unsigned()
}

// A half goes away from zero, which is counted 32768 here: upward from there on, downward before it.
fn rounded(n: u32, d: u32) -> u32
    requires { (0 < d) × (d < 65536) × (n ≤ 65535 * d) }
    ensures { (pos result -ℤ pos 32768 ≡ nearest (pos n -ℤ pos (32768 * d)) d) × (result < 65536) }
{
    if n < 32768 * d {
        return (n + (d - 1) / 2) / d;
    }
    (n + d / 2) / d
}

// Between the points both ends are weighed, so that no product passes 65535 * 65535.
fn weighed(t: u32, d: u32, y1: u32, y2: u32) -> u32
    requires { (t ≤ d) × (0 < d) × (d < 65536) × (y1 < 65536) × (y2 < 65536) }
    ensures { (pos result -ℤ pos 32768 ≡ nearest (pos (y1 * (d - t) + y2 * t) -ℤ pos (32768 * d)) d) × (result < 65536) }
{
    rounded(y1 * (d - t) + y2 * t, d)
}

pub fn line(a: Point, b: Point, x: i16) -> i16
    ensures { result ≡ line_at a.x a.y b.x b.y x }
{
    if x <= a.x {
        return a.y;
    }
    if b.x <= x {
        return b.y;
    }
    let start = raise(a.x);
    let t = raise(x) - start;
    let d = raise(b.x) - start;
    signed(weighed(t, d, raise(a.y), raise(b.y)) + 0x8000)
}

// The line at x limited to the points: it is limited of itself, so only ends in the wrong order are told apart (LineLaws.limited_kept).
pub fn limited(a: Point, b: Point, x: i16) -> i16
    ensures { result ≡ line_at a.x a.y b.x b.y (limit_whole x a.x b.x) }
{
    if b.x <= a.x {
        return a.y;
    }
    line(a, b, x)
}
