// Reading one word of the unit as its type. A word past the last reads 0.
ghost use Rattle.std.specs.Prelude.{◌≡◌, not, ◌%◌, eqb, get_or};
ghost use Rattle.numbers.specs.Signed.{signed16};

use dictionary::slots::Unit;
use dictionary::words::word_at;
use numbers::signed::signed;

pub fn whole_at(unit: &Unit, slot: usize) -> i16
    ensures { result ≡ signed16 (get_or unit.now slot 0) }
{
    signed(word_at(unit, slot))
}

pub fn byte_at(unit: &Unit, slot: usize) -> u8
    ensures { result ≡ get_or unit.now slot 0 % 0x100 }
{
    (word_at(unit, slot) % 0x100) as u8
}

pub fn time_at(unit: &Unit, slot: usize) -> u16
    ensures { result ≡ get_or unit.now slot 0 % 0x1_0000 }
{
    (word_at(unit, slot) % 0x1_0000) as u16
}

pub fn switched_at(unit: &Unit, slot: usize) -> bool
    ensures { result ≡ not (eqb (get_or unit.now slot 0 % 0x100) 0) }
{
    word_at(unit, slot) % 0x100 != 0
}
