// The data of a record.
ghost use Rattle.std.specs.Prelude.{◌≡◌};
ghost use Rattle.records.specs.Walk.{data_there};

use octets::little::{four_at, two, two_at};

// Of the record at the front, if it has so many bytes of data, one, two or four; else 0.
pub fn data_in(rest: &[u8], size: u8) -> u32
    ensures { result ≡ data_there size rest.now }
{
    if rest.len() < 7 + size as usize {
        return 0;
    }
    match size {
        1 => two(rest[7], 0) as u32,
        2 => two_at(rest, 7) as u32,
        4 => four_at(rest, 7),
        _ => 0,
    }
}
