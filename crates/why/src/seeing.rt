// What a block saw of a pair, told after the tick.
ghost use Rattle.std.specs.Prelude.{◌≡◌, ◌+◌, ◌<◌};
ghost use Rattle.why.specs.Seen.{among, block_of, placed, before_row, saw};

use dictionary::slots::{BEFORE, Unit};
use signals::keeping::of_words;
use signals::signal::Signal;
use unit::pairs::Pair;
use unit::sources::look_up;

// The row of one of the blocks that begin at a row.
fn among(start: usize, count: usize, number: u8) -> Option<usize>
    requires { start + count < 17 }
    ensures { result ≡ placed (among start count number) }
{
    let n = number as usize;
    if n == 0 {
        return None;
    }
    if count < n {
        return None;
    }
    Some(start + n - 1)
}

// The row of the block that a pair names.
pub fn block_of(pair: Pair) -> Option<usize>
    ensures { result ≡ placed (block_of pair) }
{
    let source = pair.source;
    match source {
        2 => among(0, 4, pair.number),
        3 => among(8, 6, pair.number),
        4 => among(14, 2, pair.number),
        5 => among(4, 4, pair.number),
        _ => None,
    }
}

fn found(unit: &Unit, row: usize) -> Signal
    requires { row < 16 }
    ensures { result ≡ before_row unit.now row }
{
    let at = BEFORE + 2 * row;
    of_words(unit[at], unit[at + 1])
}

// Any words, any row, any pair.
pub fn seen(unit: &Unit, row: usize, pair: Pair) -> Signal
    ensures { result ≡ saw unit.now row pair }
{
    let Some(block) = block_of(pair) else {
        return look_up(unit, pair);
    };
    if block < row {
        return look_up(unit, pair);
    }
    found(unit, block)
}
