// The twin-coil spool product: one spool, two coils on outputs 1 and 2 of the core, and an interlock between them; spool.h tells a C programmer all of it,
// and `spool_c` is what C links.
// It knows the core by three contracts and the definitions that they cite, opening none of these: `roles` `start_in` (`at_start`), `controller` `tick` (`ticked`)
// and `firmware` `valve_commands` (`commands`).
#![tactic(auto)]

mod interlock;

ghost use Rattle.std.specs.Prelude.{◌≡◌};
ghost use Rattle.roles.specs.Values.{at_start};
ghost use Rattle.controller.specs.Tick.{ticked};
ghost use Rattle.firmware.specs.Published.{commands};
ghost use Rattle.spool.specs.Interlock.{sent_at_start, interlocked};

use crate::interlock::interlock;
use controller::tick::tick;
use dictionary::slots::Unit;
use firmware::valve_commands;
use roles::start::start_in;

// What was in either array does not matter.
pub fn spool_start(unit: &mut Unit, sent: &mut [i16; 2])
    ensures unit { unit.new ≡ at_start }
    ensures sent { sent.new ≡ sent_at_start }
{
    start_in(unit);
    *sent = [0, 0];
}

// Any words, any samples, and anything that was sent.
pub fn spool_tick(unit: &mut Unit, sent: &mut [i16; 2], samples: &[i16; 4])
    ensures unit { unit.new ≡ ticked samples.now unit.old }
    ensures sent { sent.new ≡ interlocked (commands (ticked samples.now unit.old)) sent.old }
{
    tick(unit, *samples);
    let mut four = [0i16; 4];
    valve_commands(unit, &mut four);
    *sent = interlock(four, *sent);
}
