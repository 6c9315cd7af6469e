// REAL32 to INTEGER16: nearest, halves away from zero, limited to -32768..32767.
ghost use Rattle.std.specs.Prelude.{◌≡◌, ◌*◌, ◌≤◌, T};
ghost use Rattle.std.specs.Float.Ieee.Positive.{positive, num, den};
ghost use Rattle.numbers.specs.Line.{nearest_size};
ghost use Rattle.numbers.specs.Nearest.{nearest16};

use crate::signed::signed;

// A REAL32 above zero is, by its bits, an exponent x and 23 digits behind a leading one: digits / 2^(150 - x). From one half on,
// the digits are cut to halves, 2^(149 - x) of them to each, and one half more takes a half upward.
fn size(y: f32) -> u32
    requires { T (positive y) × (num y ≤ 32768 * den y) }
    ensures { result ≡ nearest_size (num y) (den y) }
{
    let bits = y.to_bits();
    if bits < 0x3F00_0000 {
        return 0;
    }
    let digits = bits % 0x80_0000 + 0x80_0000;
    ((digits >> (149 - bits / 0x80_0000)) + 1) / 2
}

// Zero of either sign and what is no number pass every test. The library's cast to i16 goes by way of REAL64, whose operations no chip's
// library may call for.
pub fn nearest(v: f32) -> i16
    ensures { result ≡ nearest16 v }
{
    if v > 32767.0 {
        return 32767;
    }
    if v < -32768.0 {
        return -32768;
    }
    if v > 0.0 {
        return signed(size(v));
    }
    if v < 0.0 {
        return signed(0x1_0000 - size(-v));
    }
    0
}
