// Rule 7 over the unit: the tick of an output's ramp, and what is remembered of it. Output n has row k = n - 1. What a count is not asked for
// is not read, and what has not changed is not laid down.
ghost use Rattle.std.specs.Prelude.{◌≡◌, ◌+◌, ◌<◌, ◌≤◌, eqb, get_or};
ghost use Rattle.numbers.specs.Choice.{first};
ghost use Rattle.dictionary.specs.Unit.{ramp_count_at};
ghost use Rattle.output.specs.Output.{in_use, unchanged, counted, begun, ramped};
ghost use Rattle.output.specs.Outputs as spec;
ghost use Rattle.output.specs.Outputs.{settings, motion, noted};

use crate::{Motion, Settings, advance, aim, rest};
use dictionary::slots::{
    COMMAND, ENABLE_RESPONSE, FAULT_FV, FAULT_MODE, OUTPUT_FV1, OUTPUT_FV2, OUTPUT_PV1, OUTPUT_PV2,
    OVERRIDE_FV, OVERRIDE_RESPONSE, RAMP_COUNT, RAMP_DOWN, RAMP_FV1, RAMP_FV2, RAMP_RISING,
    RAMP_START, RAMP_UP, RAMP_USED, Unit,
};
use numbers::limits::limit;
use numbers::signed::pattern;
use unit::rows::Row;

fn settings_of(output: Row<'_, 4>) -> Settings
    ensures { result ≡ settings output.entry.unit.now (output.entry.k + 1) }
{
    Settings {
        enable_response: output.byte(ENABLE_RESPONSE),
        override_response: output.byte(OVERRIDE_RESPONSE),
        pv1: output.whole(OUTPUT_PV1),
        pv2: output.whole(OUTPUT_PV2),
        fv1: output.whole(OUTPUT_FV1),
        fv2: output.whole(OUTPUT_FV2),
        fault_mode: output.byte(FAULT_MODE),
        fault_fv: output.whole(FAULT_FV),
        override_fv: output.whole(OVERRIDE_FV),
        ramp_up: output.time(RAMP_UP),
        ramp_down: output.time(RAMP_DOWN),
    }
}

fn in_use(output: Row<'_, 4>, rising: bool) -> u16
    ensures { result ≡ in_use (settings output.entry.unit.now (output.entry.k + 1)) rising }
{
    if rising {
        return output.time(RAMP_UP);
    }
    output.time(RAMP_DOWN)
}

// A count's direction, ramp, FV1 and FV2 are those of this tick.
fn is_unchanged(output: Row<'_, 4>, rising: bool, ramp: u16) -> bool
    requires { get_or output.unit.now (ramp_count_at + output.k) 0 ≡ 0 → ⊥ }
    ensures { result ≡ unchanged (settings output.entry.unit.now (output.entry.k + 1)) (motion output.entry.unit.now (output.entry.k + 1)) rising ramp }
{
    if output.time(RAMP_USED) != ramp {
        return false;
    }
    (output.switched(RAMP_RISING) == rising)
        & (output.whole(RAMP_FV1) == output.whole(OUTPUT_FV1))
        & (output.whole(RAMP_FV2) == output.whole(OUTPUT_FV2))
}

fn count_on(output: Row<'_, 4>, rising: bool, ramp: u16) -> u32
    requires { 0 < ramp }
    ensures { (result ≡ counted (settings output.entry.unit.now (output.entry.k + 1)) (motion output.entry.unit.now (output.entry.k + 1)) rising ramp) × (result ≤ ramp) }
{
    let count = output.unit[RAMP_COUNT + output.k];
    if count == 0 {
        return 1;
    }
    if u32::from(ramp) <= count {
        return 1;
    }
    if is_unchanged(output, rising, ramp) {
        return count + 1;
    }
    1
}

// The first tick begins where the command stands.
fn begin(output: Row<'_, 4>, ticks: u32, from: i16) -> i16
    requires { (ticks ≡ 1 → ⊥) → get_or output.unit.now (ramp_count_at + output.k) 0 ≡ 0 → ⊥ }
    ensures { result ≡ begun (motion output.entry.unit.now (output.entry.k + 1)) ticks from }
{
    if ticks == 1 {
        return from;
    }
    output.whole(RAMP_START)
}

pub fn ramp(output: Row<'_, 4>, v: i16) -> Motion
    ensures { result ≡ ramped (settings output.entry.unit.now (output.entry.k + 1)) v (motion output.entry.unit.now (output.entry.k + 1)) }
{
    let s = settings_of(output);
    let from = limit(output.whole(COMMAND), s.fv1, s.fv2);
    let to = aim(s, v);
    if from == to {
        return rest(to);
    }
    let rising = from < to;
    let used = in_use(output, rising);
    if used == 0 {
        return rest(to);
    }
    let ticks = count_on(output, rising, used);
    advance(s, ticks, begin(output, ticks, from), from, to, rising, used)
}

// What a count began with is laid down by its first tick.
fn note(unit: &mut Unit, k: usize, m: Motion)
    requires { k < 4 }
    ensures { unit.new ≡ first (eqb m.count 1) (noted unit.old (k + 1) m) unit.old }
{
    if m.count != 1 {
        return;
    }
    unit[RAMP_START + k] = pattern(m.start);
    unit[RAMP_RISING + k] = u32::from(m.rising);
    unit[RAMP_FV1 + k] = pattern(m.fv1);
    unit[RAMP_FV2 + k] = pattern(m.fv2);
    unit[RAMP_USED + k] = u32::from(m.used);
}

pub fn remember(unit: &mut Unit, k: usize, m: Motion)
    requires { k < 4 }
    ensures { unit.new ≡ spec.remember unit.old (k + 1) m }
{
    note(unit, k, m);
    unit[COMMAND + k] = pattern(m.command);
    unit[RAMP_COUNT + k] = m.count;
}
