// The four current outputs in a tick. Output n has row k = n - 1. What a rule does not ask for is not looked up.
ghost use Rattle.std.specs.Prelude.{◌≡◌, ◌+◌, ◌<◌};
ghost use Rattle.output.specs.Outputs.{driven_of, output_turn};
ghost use Rattle.output.specs.Rules.{fault_for, controlled, overridden};
ghost use Rattle.unit.specs.Each.{each};

use crate::ramps::{ramp, remember};
use crate::turning::{turned_off, turned_on};
use crate::{Motion, rest};
use dictionary::slots::{
    COMMAND, CONTROL_NUMBER, CONTROL_SOURCE, ENABLE_NUMBER, ENABLE_RESPONSE, ENABLE_SOURCE,
    FAULT_FV, FAULT_MODE, OVERRIDE_FV, OVERRIDE_NUMBER, OVERRIDE_RESPONSE, OVERRIDE_SOURCE, Unit,
};
use signals::reading::{absent, as_whole, failed};
use unit::rows::Row;
use unit::sources::look_up;

fn fault(output: Row<'_, 4>) -> i16
    ensures { result ≡ fault_for output.entry.unit.now (output.entry.k + 1) }
{
    if output.byte(FAULT_MODE) == 0 {
        return output.whole(COMMAND);
    }
    output.whole(FAULT_FV)
}

// Rules 5 to 7: the control decides.
fn control(output: Row<'_, 4>) -> Motion
    ensures { result ≡ controlled output.entry.unit.now (output.entry.k + 1) }
{
    let signal = look_up(output.unit, output.pair(CONTROL_SOURCE, CONTROL_NUMBER));
    if failed(signal) {
        return rest(fault(output));
    }
    if absent(signal) {
        return rest(0);
    }
    ramp(output, as_whole(signal))
}

// Rules 3 and 4: the override decides, else the control.
fn override_or_control(output: Row<'_, 4>) -> Motion
    ensures { result ≡ overridden output.entry.unit.now (output.entry.k + 1) }
{
    let over = look_up(output.unit, output.pair(OVERRIDE_SOURCE, OVERRIDE_NUMBER));
    if turned_on(output.byte(OVERRIDE_RESPONSE), over) {
        return rest(output.whole(OVERRIDE_FV));
    }
    if failed(over) {
        return rest(fault(output));
    }
    control(output)
}

// Rules 1 and 2: the enable decides, else the override.
fn drive(output: Row<'_, 4>) -> Motion
    ensures { result ≡ driven_of output.entry.unit.now (output.entry.k + 1) }
{
    let enable = look_up(output.unit, output.pair(ENABLE_SOURCE, ENABLE_NUMBER));
    if turned_off(output.byte(ENABLE_RESPONSE), enable) {
        return rest(0);
    }
    if failed(enable) {
        return rest(fault(output));
    }
    override_or_control(output)
}

pub fn outputs(unit: &mut Unit)
    ensures { unit.new ≡ each 4 output_turn unit.old }
{
    for k in 0..4_u32 {
        remember(
            unit,
            k as usize,
            drive(Row {
                unit,
                k: k as usize,
            }),
        );
    }
}
