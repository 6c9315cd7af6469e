// The four inputs in a tick. Input n has row k = n - 1.
ghost use Rattle.std.specs.Prelude.{◌≡◌, ◌+◌, ◌-◌, ◌<◌, pos, get_or};
ghost use Rattle.input.specs.Inputs as spec;
ghost use Rattle.input.specs.Inputs.{settings, input_turn};
ghost use Rattle.unit.specs.Each.{each};

use crate::errors::note;
use crate::{Memory, Settings, sense};
use dictionary::slots::{
    DELAY, DETECT, FLAGS, HYSTERESIS, INPUT_FV1, INPUT_FV2, INPUT_PV, INPUT_PV1, INPUT_PV2, RUNS,
    SAMPLE, SPAN_END, SPAN_START, Unit,
};
use numbers::signed::pattern;
use unit::laying::lay;
use unit::rows::Row;

fn settings_of(input: Row<'_, 4>) -> Settings
    ensures { result ≡ settings input.entry.unit.now (input.entry.k + 1) }
{
    Settings {
        fv1: input.whole(INPUT_FV1),
        pv1: input.whole(INPUT_PV1),
        fv2: input.whole(INPUT_FV2),
        pv2: input.whole(INPUT_PV2),
        start: input.whole(SPAN_START),
        end: input.whole(SPAN_END),
        hysteresis: input.whole(HYSTERESIS),
        detect: input.switched(DETECT),
        delay: input.time(DELAY),
    }
}

fn memory(input: Row<'_, 4>) -> Memory
    ensures { result ≡ spec.memory input.entry.unit.now (input.entry.k + 1) }
{
    Memory {
        run: input.unit[RUNS + input.k],
        flagged: input.unit[FLAGS + input.k] != 0,
    }
}

fn remember(unit: &mut Unit, k: usize, memory: Memory)
    requires { k < 4 }
    ensures { unit.new ≡ spec.remember unit.old (k + 1) memory }
{
    unit[RUNS + k] = memory.run;
    unit[FLAGS + k] = u32::from(memory.flagged);
}

pub fn inputs(unit: &mut Unit, samples: [i16; 4])
    ensures { unit.new ≡ each 4 (λ n. input_turn (get_or samples (n - 1) (pos 0)) n) unit.old }
{
    for row in 0..4_u8 {
        let k = row as usize;
        let sample = samples[k];
        let input = Row { unit, k };
        let before = memory(input);
        let after = sense(settings_of(input), before, sample);
        let signal = after.signal;
        let next = after.memory;
        unit[SAMPLE + k] = pattern(sample);
        unit[INPUT_PV + k] = pattern(after.reads);
        lay(unit, k, signal);
        note(unit, row, before.flagged, next.flagged);
        remember(unit, k, next);
    }
}
