// The signal that a pair (source, number) names.
mod held;

ghost use Rattle.std.specs.Prelude.{◌≡◌, ◌<◌, ◌≤◌};
ghost use Rattle.unit.specs.Entry as entry;
ghost use Rattle.unit.specs.Extent.{extent};
ghost use Rattle.unit.specs.Sources.{sourced};

use crate::pairs::Pair;
use crate::sources::held::held;
use crate::words::whole_at;
use dictionary::slots::{CONSTANT, EC_VALUE, FIXED, Unit};
use signals::keeping::real_of;
use signals::signal::Signal;

// What a kind of block has, as one number that is looked up once: where its signals begin in the row of blocks, times 16, and how many it
// has. Received values and constants are no blocks.
#[tactic(auto, unfolding(crate::specs::Extent::extent, numbers::specs::Choice::first))]
fn extent(source: u8) -> usize
    requires { (source ≡ 1 → ⊥) × (source ≡ 6 → ⊥) }
    ensures { result ≡ extent source }
{
    match source {
        2 => 16 * 0 + 4,
        3 => 16 * 8 + 6,
        4 => 16 * 14 + 2,
        5 => 16 * 4 + 4,
        _ => 0,
    }
}

// 5010h:1-2 stand apart from 5010h:3-15.
fn constant(unit: &Unit, number: usize) -> f32
    requires { (0 < number) × (number ≤ 15) }
    ensures { result ≡ entry.real unit.now 0x5010 number }
{
    if number < 3 {
        return real_of(unit[FIXED + number - 1]);
    }
    real_of(unit[CONSTANT + number - 3])
}

// The source is told apart once, and one arm serves all blocks, so that the whole is small enough to be inlined wherever it is asked.
pub fn look_up(unit: &Unit, pair: Pair) -> Signal
    ensures { result ≡ sourced unit.now pair.source pair.number }
{
    let Pair { source, number } = pair;
    if number == 0 {
        return Signal::Absent;
    }
    let n = number as usize;
    if source == 1 {
        if 12 < n {
            return Signal::Absent;
        }
        return Signal::Whole(whole_at(unit, EC_VALUE + n - 1));
    }
    if source == 6 {
        if 15 < n {
            return Signal::Absent;
        }
        return Signal::Real(constant(unit, n));
    }
    let has = extent(source);
    if has % 16 < n {
        return Signal::Absent;
    }
    held(unit, has / 16 + n - 1)
}
