// The trail of an error, from block to block.
ghost use Rattle.std.specs.Prelude.{◌≡◌, ◌+◌, ◌%◌, ◌<◌, get_or};
ghost use Rattle.why.specs.Answer.{end_number, Followed};
ghost use Rattle.why.specs.Seen.{block_of};
ghost use Rattle.why.specs.Trail as spec;
ghost use Rattle.why.specs.Trail.{math_next};

use crate::seeing::{block_of, seen};
use crate::types::{End, Next, Walked};
use dictionary::slots::{
    LOGIC_SELECTED, MATH_ENTRIES, OPERAND_NUMBER, OPERAND_SOURCE, TABLE_ENTRIES, TABLE_NUMBER,
    TABLE_SOURCE, Unit,
};
use octets::putting::put;
use signals::reading::failed;
use unit::pairs::{Pair, pair_at};
use unit::rows::Row;

// Input i + 1 of math k + 1.
fn math_pair(math: Row<'_, 4>, i: usize) -> Pair
    requires { i < 4 }
    ensures { result ≡ spec.math_pair math.entry.unit.now (math.entry.k + 1) (i + 1) }
{
    let at = (MATH_ENTRIES as u32 * math.k as u32) as usize + i;
    pair_at(math.unit, OPERAND_SOURCE + at, OPERAND_NUMBER + at)
}

// The X of table k + 1.
fn table_pair(table: Row<'_, 6>) -> Pair
    ensures { result ≡ spec.table_pair table.entry.unit.now (table.entry.k + 1) }
{
    let at = (TABLE_ENTRIES as u32 * table.k as u32) as usize;
    pair_at(table.unit, TABLE_SOURCE + at, TABLE_NUMBER + at)
}

// The table that logic k + 1 selected.
fn logic_pair(logic: Row<'_, 2>) -> Pair
    ensures { result ≡ spec.logic_pair logic.entry.unit.now (logic.entry.k + 1) }
{
    Pair {
        source: 3,
        number: logic.byte(LOGIC_SELECTED),
    }
}

pub fn number_of(end: End) -> u8
    ensures { result ≡ end_number end }
{
    match end {
        End::Flagged => 1,
        End::Divided => 2,
        End::Earlier => 3,
    }
}

// The lowest-numbered input in error, else a division.
fn math_next(math: Row<'_, 4>) -> Next
    ensures { result ≡ math_next math.entry.unit.now math.entry.k }
{
    for i in 0..4 {
        let pair = math_pair(math, i);
        if failed(seen(math.unit, 4 + math.k, pair)) {
            return Next::Reads(pair);
        }
    }
    Next::Ends(End::Divided)
}

fn next(unit: &Unit, row: usize) -> Next
    requires { row < 16 }
    ensures { result ≡ spec.next unit.now row }
{
    if row < 4 {
        return Next::Ends(End::Flagged);
    }
    if row < 8 {
        return math_next(Row { unit, k: row - 4 });
    }
    if row < 14 {
        return Next::Reads(table_pair(Row { unit, k: row - 8 }));
    }
    Next::Reads(logic_pair(Row { unit, k: row - 14 }))
}

// The deciding pair and the steps behind it, each a source and a number, from place 8 of the trail on. Rows fall, so there are no more
// steps than blocks.
pub fn follow(unit: &Unit, first: Pair, block: usize, trail: &mut [u8]) -> Walked
    requires { (block ≡ block_of first) × (block < 16) }
    ensures { Followed unit.now first trail.old trail.new result }
{
    let front = [first.source, first.number];
    put(trail, 8, &front);
    let mut row = block;
    for i in 0..16 {
        let next = next(unit, row);
        match next {
            Next::Ends(end) => {
                return Walked {
                    count: i as u8 + 1,
                    end,
                };
            }
            Next::Reads(pair) => {
                let step = [pair.source, pair.number];
                put(trail, 10 + 2 * i, &step);
                let Some(block) = block_of(pair) else {
                    return Walked {
                        count: i as u8 + 2,
                        end: End::Earlier,
                    };
                };
                if row <= block {
                    return Walked {
                        count: i as u8 + 2,
                        end: End::Earlier,
                    };
                }
                row = block;
            }
        }
    }
    Walked {
        count: 17,
        end: End::Earlier,
    }
}
