// An analog input: whether it is flagged, and what it hands on; turns.rt has the four of them in a tick, errors.rt the list of their flaggings.
#![tactic(auto)]

mod errors;
pub mod turns;

ghost use Rattle.std.specs.Prelude.{◌≡◌};
ghost use Rattle.input.specs.Input.{within, out, run_after, clears, kept, process, sensed};

use numbers::exact::{difference, sum};
use numbers::whole_line::{Point, limited};
use signals::signal::Signal;

#[derive(Clone, Copy)]
pub struct Settings {
    pub fv1: i16,
    pub pv1: i16,
    pub fv2: i16,
    pub pv2: i16,
    pub start: i16,
    pub end: i16,
    pub hysteresis: i16,
    pub detect: bool,
    pub delay: u16,
}

// What an input keeps from tick to tick: the run of out ticks, and its flag.
#[derive(Clone, Copy)]
pub struct Memory {
    pub run: u32,
    pub flagged: bool,
}

// What an input hands on: its memory, its signal, and what 7130h reads.
#[derive(Clone, Copy)]
pub struct Sensed {
    pub memory: Memory,
    pub signal: Signal,
    pub reads: i16,
}

// One more than any delay that two bytes can hold: a longer run tells nothing more.
const LONGEST: u32 = 65536;

fn is_within(low: i32, v: i32, high: i32) -> bool
    ensures { result ≡ within low v high }
{
    low <= v && v <= high
}

fn is_out(s: Settings, sample: i16) -> bool
    ensures { result ≡ out s sample }
{
    if s.detect {
        return !is_within(i32::from(s.start), i32::from(sample), i32::from(s.end));
    }
    false
}

fn does_clear(s: Settings, sample: i16) -> bool
    ensures { result ≡ clears s sample }
{
    if s.detect {
        return is_within(
            sum(s.start, s.hysteresis),
            i32::from(sample),
            difference(s.end, s.hysteresis),
        );
    }
    true
}

fn counted(s: Settings, run: u32, sample: i16) -> u32
    ensures { result ≡ run_after s run sample }
{
    if is_out(s, sample) {
        return run.saturating_add(1).min(LONGEST);
    }
    0
}

fn keep(s: Settings, memory: Memory, sample: i16) -> Memory
    ensures { result ≡ kept s memory sample }
{
    let run = counted(s, memory.run, sample);
    if u32::from(s.delay) < run {
        return Memory { run, flagged: true };
    }
    if memory.flagged {
        return Memory {
            run,
            flagged: !does_clear(s, sample),
        };
    }
    Memory {
        run,
        flagged: false,
    }
}

fn scaled(s: Settings, sample: i16) -> i16
    ensures { result ≡ process s sample }
{
    let low = Point { x: s.fv1, y: s.pv1 };
    let high = Point { x: s.fv2, y: s.pv2 };
    limited(low, high, sample)
}

pub fn sense(settings: Settings, memory: Memory, sample: i16) -> Sensed
    ensures { result ≡ sensed settings memory sample }
{
    let after = keep(settings, memory, sample);
    if after.flagged {
        return Sensed {
            memory: after,
            signal: Signal::Error,
            reads: 0,
        };
    }
    let pv = scaled(settings, sample);
    Sensed {
        memory: after,
        signal: Signal::Whole(pv),
        reads: pv,
    }
}
