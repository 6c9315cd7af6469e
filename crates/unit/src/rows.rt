// A block in its turn, and its entries by the slot of the first of their kind. A slot past the last reads 0.
ghost use Rattle.std.specs.Prelude.{◌≡◌, not, ◌+◌, ◌%◌, ◌<◌, eqb, get_or};
ghost use Rattle.numbers.specs.Signed.{signed16};

use crate::pairs::{Pair, pair_at};
use crate::words::{byte_at, switched_at, time_at, whole_at};
use dictionary::slots::{UNIT, Unit};

// One of so many blocks of a kind, with the unit as it finds it: block n has row k = n - 1.
#[derive(Clone, Copy)]
pub struct Row<'a, const COUNT: usize> {
    pub unit: &'a Unit,
    pub k: usize,
    pub ghost is_one: { k < COUNT },
    pub ghost few: { COUNT < 65536 },
}

// A number that no slot has names a word past the last, as the first past the last does, so no caller has to look first; where a slot is given by its
// name nothing is left of the test.
fn slot(unit: &Unit, first: usize, k: usize) -> usize
    requires { k < 65536 }
    ensures { get_or unit.now result 0 ≡ get_or unit.now (first + k) 0 }
{
    if first < UNIT { first + k } else { UNIT }
}

impl<'a, const COUNT: usize> Row<'a, COUNT> {
    pub fn whole(self, first: usize) -> i16
        ensures { result ≡ signed16 (get_or self.entry.unit.now (first + self.entry.k) 0) }
    {
        let unit = self.unit;
        whole_at(unit, slot(unit, first, self.k))
    }

    pub fn byte(self, first: usize) -> u8
        ensures { result ≡ get_or self.entry.unit.now (first + self.entry.k) 0 % 0x100 }
    {
        let unit = self.unit;
        byte_at(unit, slot(unit, first, self.k))
    }

    pub fn time(self, first: usize) -> u16
        ensures { result ≡ get_or self.entry.unit.now (first + self.entry.k) 0 % 0x1_0000 }
    {
        let unit = self.unit;
        time_at(unit, slot(unit, first, self.k))
    }

    pub fn switched(self, first: usize) -> bool
        ensures { result ≡ not (eqb (get_or self.entry.unit.now (first + self.entry.k) 0 % 0x100) 0) }
    {
        let unit = self.unit;
        switched_at(unit, slot(unit, first, self.k))
    }

    pub fn pair(self, source: usize, number: usize) -> Pair
        ensures { result ≡ record { source = get_or self.entry.unit.now (source + self.entry.k) 0 % 0x100; number = get_or self.entry.unit.now (number + self.entry.k) 0 % 0x100 } }
    {
        let unit = self.unit;
        pair_at(unit, slot(unit, source, self.k), slot(unit, number, self.k))
    }
}
