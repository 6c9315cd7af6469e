// The four math blocks in a tick. Block n has row k = n - 1.
ghost use Rattle.std.specs.Prelude.{◌≡◌, ◌+◌, ◌<◌};
ghost use Rattle.math.specs.Maths as spec;
ghost use Rattle.math.specs.Math.{started, ended};
ghost use Rattle.math.specs.Maths.{math_signal, math_turn};
ghost use Rattle.unit.specs.Each.{each};

use crate::folding::{finish, join, start};
use crate::{Ends, Operand};
use dictionary::slots::{
    MATH_ENABLE, MATH_ENTRIES, MATH_FROM, MATH_OPERATOR, MATH_TO, MATH_VALUE, OPERAND_FROM,
    OPERAND_GAIN, OPERAND_NUMBER, OPERAND_SOURCE, OPERAND_TO, Unit,
};
use signals::keeping::number_of;
use signals::reading::{absent, as_real};
use signals::signal::Signal;
use unit::laying::lay;
use unit::pairs::pair_at;
use unit::rows::Row;
use unit::sources::look_up;
use unit::words::{byte_at, whole_at};

// Input i + 1, its signal as REAL32 from the start.
fn operand(math: Row<'_, 4>, i: usize) -> Operand
    requires { i < 4 }
    ensures { result ≡ spec.operand math.entry.unit.now (math.entry.k + 1) (i + 1) }
{
    let at = (MATH_ENTRIES as u32 * math.k as u32) as usize + i;
    Operand {
        signal: as_real(look_up(
            math.unit,
            pair_at(math.unit, OPERAND_SOURCE + at, OPERAND_NUMBER + at),
        )),
        ends: Ends {
            from: whole_at(math.unit, OPERAND_FROM + at),
            to: whole_at(math.unit, OPERAND_TO + at),
        },
        gain: whole_at(math.unit, OPERAND_GAIN + at),
    }
}

fn ends(math: Row<'_, 4>) -> Ends
    ensures { result ≡ spec.ends math.entry.unit.now (math.entry.k + 1) }
{
    Ends {
        from: math.whole(MATH_FROM),
        to: math.whole(MATH_TO),
    }
}

// Inputs 2 to 4 join the run of input 1, one at a time.
fn combine(math: Row<'_, 4>, one: Operand) -> Signal
    ensures { result ≡ ended (spec.ends math.entry.unit.now (math.entry.k + 1)) (spec.joined_to math.entry.unit.now (math.entry.k + 1) (started one) 3) }
{
    let mut fold = start(one);
    for i in 1..4_u32 {
        let row = (MATH_ENTRIES as u32 * math.k as u32) as usize;
        let operator = byte_at(math.unit, MATH_OPERATOR + row + i as usize - 1);
        fold = join(fold, operator, operand(math, i as usize));
    }
    finish(fold, ends(math))
}

// A disabled block looks nothing up.
fn signal_of(math: Row<'_, 4>) -> Signal
    ensures { result ≡ math_signal math.entry.unit.now (math.entry.k + 1) }
{
    if math.switched(MATH_ENABLE) {
        let one = operand(math, 0);
        let signal = one.signal;
        if absent(signal) {
            return Signal::Absent;
        }
        return combine(math, one);
    }
    Signal::Absent
}

// One block after the other; each finds in the unit what the ones before it made, and what all others made in the last tick.
pub fn maths(unit: &mut Unit)
    ensures { unit.new ≡ each 4 math_turn unit.old }
{
    for k in 0..4_u32 {
        let signal = signal_of(Row {
            unit,
            k: k as usize,
        });
        unit[MATH_VALUE + k as usize] = number_of(as_real(signal));
        lay(unit, 4 + k as usize, signal);
    }
}
