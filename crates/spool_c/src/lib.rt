// The twin-coil spool product for C: each function of the crate `spool` under its own name, with the same contract. spool.h beside that crate tells a C programmer
// all of it.
#![tactic(auto)]

ghost use Rattle.std.specs.Prelude.{◌≡◌};
ghost use Rattle.roles.specs.Values.{at_start};
ghost use Rattle.controller.specs.Tick.{ticked};
ghost use Rattle.firmware.specs.Published.{commands};
ghost use Rattle.spool.specs.Interlock.{sent_at_start, interlocked};

use dictionary::slots::Unit;

// What was in either array does not matter.
#[unsafe(no_mangle)]
pub extern "C" fn spool_start(unit: &mut Unit, sent: &mut [i16; 2])
    ensures unit { unit.new ≡ at_start }
    ensures sent { sent.new ≡ sent_at_start }
{
    spool::spool_start(unit, sent);
}

// Any words, any samples, and anything that was sent.
#[unsafe(no_mangle)]
pub extern "C" fn spool_tick(unit: &mut Unit, sent: &mut [i16; 2], samples: &[i16; 4])
    ensures unit { unit.new ≡ ticked samples.now unit.old }
    ensures sent { sent.new ≡ interlocked (commands (ticked samples.now unit.old)) sent.old }
{
    spool::spool_tick(unit, sent, samples);
}
