// What a line of the session asks for. The line comes without its line end.
mod decimal;
mod hexadecimal;

ghost use Rattle.std.specs.Prelude.{◌≡◌};
ghost use Rattle.printer.specs.Reading.{fields, asked_frame, asked_tick, asked};

use crate::reading::decimal::read_number;
use crate::reading::hexadecimal::nibble;

#[derive(Clone, Copy)]
pub enum Request {
    Frame([u8; 8]),
    Tick([i16; 4]),
}

// What follows "S ": two digits a byte.
fn frame(digits: &[u8]) -> Option<Request>
    ensures { result ≡ asked_frame (fields digits.now) }
{
    if digits.len() != 16 {
        return None;
    }
    let mut bytes = [0u8; 8];
    for k in 0..8 {
        let high = nibble(digits[2 * k])?;
        let low = nibble(digits[2 * k + 1])?;
        bytes[k] = 16 * high + low;
    }
    Some(Request::Frame(bytes))
}

// What follows "T ": four fields, each a decimal.
fn tick(rest: &[u8]) -> Option<Request>
    ensures { result ≡ asked_tick (fields rest.now) }
{
    let mut samples = [0i16; 4];
    let mut count: usize = 0;
    for field in rest.split(|b| *b == b' ') {
        if count == 4 {
            return None;
        }
        let Some(v) = read_number(field) else {
            return None;
        };
        samples[count] = v;
        count += 1;
    }
    if count < 4 {
        return None;
    }
    Some(Request::Tick(samples))
}

// By the leading letter and the space after it.
pub fn read(line: &[u8]) -> Option<Request>
    ensures { result ≡ asked line.now }
{
    match line {
        [b'S', b' ', digits @ ..] => frame(digits),
        [b'T', b' ', rest @ ..] => tick(rest),
        _ => None,
    }
}
