// A pair (source, number), as it stands in two entries.
ghost use Rattle.std.specs.Prelude.{◌≡◌, ◌%◌, get_or};

use crate::words::byte_at;
use dictionary::slots::Unit;

#[derive(Clone, Copy)]
pub struct Pair {
    pub source: u8,
    pub number: u8,
}

// Words past the last read 0.
pub fn pair_at(unit: &Unit, source: usize, number: usize) -> Pair
    ensures { result ≡ record { source = get_or unit.now source 0 % 0x100; number = get_or unit.now number 0 % 0x100 } }
{
    Pair {
        source: byte_at(unit, source),
        number: byte_at(unit, number),
    }
}
