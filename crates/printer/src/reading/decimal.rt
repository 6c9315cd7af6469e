// A decimal INTEGER16: an optional - and 1 to 5 digits.
ghost use Rattle.std.specs.Prelude.{◌≡◌};
ghost use Rattle.printer.specs.Steps.{size_read, number_read};

use numbers::signed::signed;

// 1 to 5 digits and nothing else, and no more than a limit.
pub fn read_size(digits: &[u8], limit: u32) -> Option<u32>
    ensures { result ≡ size_read digits.now limit }
{
    if digits.is_empty() {
        return None;
    }
    if digits.len() > 5 {
        return None;
    }
    let mut n: u32 = 0;
    for b in digits {
        if !b.is_ascii_digit() {
            return None;
        }
        n = n * 10 + u32::from(*b - b'0');
    }
    if n > limit {
        return None;
    }
    Some(n)
}

// A negative number is made from its two's complement, so that -32768 needs no case of its own.
pub fn read_number(text: &[u8]) -> Option<i16>
    ensures { result ≡ number_read text.now }
{
    match text {
        [] => None,
        [b'-', digits @ ..] => {
            let Some(n) = read_size(digits, 32768) else {
                return None;
            };
            Some(signed(65536 - n))
        }
        _ => {
            let Some(n) = read_size(text, 32767) else {
                return None;
            };
            Some(n as i16)
        }
    }
}
