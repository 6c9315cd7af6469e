// One tick: inputs, math, tables, logic, outputs, then 1001h. The signals are kept as they are found, for whoever asks why.
ghost use Rattle.std.specs.Prelude.{◌≡◌};
ghost use Rattle.controller.specs.Tick.{recalled, ticked};

use crate::error_register::register;
use dictionary::slots::{BEFORE, SIGNALS, TICKED, Unit};
use input::turns::inputs;
use logic::turns::logics;
use math::turns::maths;
use output::turns::outputs;
use table::turns::tables;

fn recall(unit: &mut Unit)
    ensures { unit.new ≡ recalled unit.old }
{
    for k in 0..32 {
        unit[BEFORE + k] = unit[SIGNALS + k];
    }
}

// Any words, any samples.
pub fn tick(unit: &mut Unit, samples: [i16; 4])
    ensures { unit.new ≡ ticked samples unit.old }
{
    recall(unit);
    inputs(unit, samples);
    maths(unit);
    tables(unit);
    logics(unit);
    outputs(unit);
    register(unit);
    unit[TICKED] = 1;
}
