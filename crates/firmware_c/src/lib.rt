// The unit for C: each function of the crate `firmware` under its own name, with the same contract. valve.h beside that crate tells a C programmer all of it.
#![tactic(auto)]

ghost use Rattle.std.specs.Prelude.{◌≡◌};
ghost use Rattle.controller.specs.Tick.{ticked};
ghost use Rattle.roles.specs.Values.{at_start};
ghost use Rattle.image.specs.Reading.{reading};
ghost use Rattle.firmware.specs.Published as published;
ghost use Rattle.firmware.specs.Replied.{Replied};
ghost use Rattle.firmware.specs.Told.{ToldSaved, ToldLoaded, ToldWhy};
ghost use Rattle.image.specs.Told.{told};

use dictionary::slots::Unit;
use why::types::TRAIL;

#[unsafe(no_mangle)]
pub extern "C" fn valve_start(unit: &mut Unit)
    ensures { unit.new ≡ at_start }
{
    firmware::valve_start(unit);
}

// The length of the reply: 8, or 0 where there is none.
#[unsafe(no_mangle)]
pub extern "C" fn valve_serve(unit: &mut Unit, frame: &[u8], reply: &mut [u8]) -> i32
    ensures { Replied unit.old frame.now reply.old unit.new reply.new result }
{
    firmware::valve_serve(unit, frame, reply)
}

#[unsafe(no_mangle)]
pub extern "C" fn valve_tick(unit: &mut Unit, samples: &[i16; 4])
    ensures { unit.new ≡ ticked samples.now unit.old }
{
    firmware::valve_tick(unit, samples);
}

#[unsafe(no_mangle)]
pub extern "C" fn valve_commands(unit: &Unit, commands: &mut [i16; 4])
    ensures { commands.new ≡ published.commands unit.now }
{
    firmware::valve_commands(unit, commands);
}

#[unsafe(no_mangle)]
pub extern "C" fn valve_error_register(unit: &Unit) -> u8
    ensures { result ≡ published.register unit.now }
{
    firmware::valve_error_register(unit)
}

#[unsafe(no_mangle)]
pub extern "C" fn valve_save(unit: &Unit, image: &mut [u8]) -> i32
    ensures { ToldSaved unit.now image.old image.new result }
{
    firmware::valve_save(unit, image)
}

#[unsafe(no_mangle)]
pub extern "C" fn valve_check(image: &[u8]) -> i32
    ensures { result ≡ told (reading image.now) }
{
    firmware::valve_check(image)
}

#[unsafe(no_mangle)]
pub extern "C" fn valve_load(unit: &mut Unit, image: &[u8]) -> i32
    ensures { ToldLoaded unit.old image.now unit.new result }
{
    firmware::valve_load(unit, image)
}

// The rule, 1 to 7, or why none is told.
#[unsafe(no_mangle)]
pub extern "C" fn valve_why(unit: &Unit, output: u8, trail: &mut [u8; TRAIL]) -> i32
    ensures { ToldWhy unit.now output trail.old trail.new result }
{
    firmware::valve_why(unit, output, trail)
}
