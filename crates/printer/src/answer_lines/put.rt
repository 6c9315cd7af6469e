// Bytes put into a buffer from a place on; the answer is the place after them.
ghost use Rattle.std.specs.Prelude.{◌≡◌, ◌+◌, ◌≤◌, ◌<◌, [], ◌∷◌, ◌++◌, length};
ghost use Rattle.printer.specs.Printing.{hex_digit, hex2, width, digits, decimal};
ghost use Rattle.printer.specs.Put.{Put};

fn hex_digit(n: u8) -> u8
    requires { n < 16 }
    ensures { result ≡ hex_digit n }
{
    if n < 10 { b'0' + n } else { b'A' + (n - 10) }
}

pub fn put_hex(b: u8, at: usize, out: &mut [u8]) -> usize
    requires { at + 2 ≤ length out.old }
    ensures { Put out.old at (hex2 b) out.new result }
{
    out[at] = hex_digit(b / 16);
    out[at + 1] = hex_digit(b % 16);
    at + 2
}

// How many digits a number needs.
#[tactic(auto, using(numbers::proofs::Tests::tests), unfolding(crate::specs::Printing::width, numbers::specs::Choice::first))]
fn width_of(n: u32) -> usize
    requires { n < 100000 }
    ensures { result ≡ width n }
{
    match n {
        0..=9 => 1,
        10..=99 => 2,
        100..=999 => 3,
        1000..=9999 => 4,
        _ => 5,
    }
}

// The last digit goes to the last place first.
fn put_digits(n: u32, at: usize, out: &mut [u8]) -> usize
    requires { (n < 100000) × (at + 5 ≤ length out.old) }
    ensures { Put out.old at (digits n) out.new result }
{
    let count = width_of(n);
    let mut m = n;
    for place in (0..count).rev() {
        out[at + place] = b'0' + (m % 10) as u8;
        m /= 10;
    }
    at + count
}

fn put_decimal(v: i16, at: usize, out: &mut [u8]) -> usize
    requires { at + 6 ≤ length out.old }
    ensures { Put out.old at (decimal v) out.new result }
{
    let size = u32::from(v.unsigned_abs());
    if v < 0 {
        out[at] = b'-';
        return put_digits(size, at + 1, out);
    }
    put_digits(size, at, out)
}

// A space and a command.
pub fn put_command(v: i16, at: usize, out: &mut [u8]) -> usize
    requires { at + 7 ≤ length out.old }
    ensures { Put out.old at (0x20 ∷ decimal v) out.new result }
{
    out[at] = b' ';
    put_decimal(v, at + 1, out)
}

// A space, the register and the line end.
pub fn put_register(b: u8, at: usize, out: &mut [u8]) -> usize
    requires { at + 4 ≤ length out.old }
    ensures { Put out.old at (0x20 ∷ hex2 b ++ 0x0A ∷ []) out.new result }
{
    out[at] = b' ';
    let end = put_hex(b, at + 1, out);
    out[end] = b'\n';
    end + 1
}
