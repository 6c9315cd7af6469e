// A current output: where a tick of a ramp puts its command here, the words that an output remembers in ramps.rt, what turns it on or off in
// turning.rt, the four outputs with their rules in turns.rt.
#![tactic(auto)]

mod distances;
mod ramps;
pub mod turning;
pub mod turns;

ghost use Rattle.std.specs.Prelude.{◌≡◌, ◌<◌, ◌≤◌};
ghost use Rattle.output.specs.Output.{span, way, rise, fall, reached, advanced, target, rests};

use crate::distances::{lowered, narrow, raised};
use numbers::whole_line::{Point, limited};

#[derive(Clone, Copy)]
pub struct Settings {
    pub enable_response: u8,
    pub override_response: u8,
    pub pv1: i16,
    pub pv2: i16,
    pub fv1: i16,
    pub fv2: i16,
    pub fault_mode: u8,
    pub fault_fv: i16,
    pub override_fv: i16,
    pub ramp_up: u16,
    pub ramp_down: u16,
}

// What an output keeps from tick to tick: its command, the ticks counted, and what the count began with: the command, whether it rises, FV1,
// FV2 and the ramp in use. Count 0: it starts again.
#[derive(Clone, Copy)]
pub struct Motion {
    pub command: i16,
    pub count: u32,
    pub start: i16,
    pub rising: bool,
    pub fv1: i16,
    pub fv2: i16,
    pub used: u16,
}

// How far FV2 lies above FV1.
fn width(fv1: i16, fv2: i16) -> u16
    ensures { result ≡ span fv1 fv2 }
{
    if fv1 < fv2 {
        return fv2.abs_diff(fv1);
    }
    0
}

// No count is longer than its ramp, so no movement is longer than the width.
fn movement(ticks: u32, width: u16, ramp: u16) -> u16
    requires { (0 < ramp) × (ticks ≤ ramp) }
    ensures { result ≡ way ticks width ramp }
{
    (ticks * u32::from(width) / u32::from(ramp)) as u16
}

fn climb(start: i16, far: u16, from: i16, to: i16) -> i16
    ensures { result ≡ rise start far from to }
{
    let there = raised(start, far);
    if there < i32::from(to) {
        return narrow(there).max(from);
    }
    to
}

fn sink(start: i16, far: u16, from: i16, to: i16) -> i16
    ensures { result ≡ fall start far from to }
{
    let there = lowered(start, far);
    if i32::from(to) < there {
        return narrow(there).min(from);
    }
    to
}

fn reach(rising: bool, start: i16, far: u16, from: i16, to: i16) -> i16
    ensures { result ≡ reached rising start far from to }
{
    if rising {
        return climb(start, far, from, to);
    }
    sink(start, far, from, to)
}

// A command with no count: a rule of 1 to 6 named it, or it stands at its target.
fn rest(command: i16) -> Motion
    ensures { result ≡ rests command }
{
    Motion {
        command,
        count: 0,
        start: 0,
        rising: false,
        fv1: 0,
        fv2: 0,
        used: 0,
    }
}

// So many ticks from the start.
fn advance(
    s: Settings,
    ticks: u32,
    start: i16,
    from: i16,
    to: i16,
    rising: bool,
    ramp: u16,
) -> Motion
    requires { (0 < ramp) × (ticks ≤ ramp) }
    ensures { result ≡ advanced s ticks start from to rising ramp }
{
    let far = movement(ticks, width(s.fv1, s.fv2), ramp);
    let command = reach(rising, start, far, from, to);
    if command == to {
        return rest(to);
    }
    Motion {
        command,
        count: ticks,
        start,
        rising,
        fv1: s.fv1,
        fv2: s.fv2,
        used: ramp,
    }
}

fn aim(s: Settings, v: i16) -> i16
    ensures { result ≡ target s v }
{
    let low = Point { x: s.pv1, y: s.fv1 };
    let high = Point { x: s.pv2, y: s.fv2 };
    limited(low, high, v)
}
