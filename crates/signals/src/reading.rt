// A signal as the blocks read it: as a REAL32, as a whole number, and the two states that are no number.
ghost use Rattle.std.specs.Prelude.{◌≡◌};
ghost use Rattle.signals.specs.Signal.{is_absent, is_error, as_real, whole};

use crate::signal::Signal;
use numbers::rounding::nearest;

// A whole number as its REAL32; all else as it is.
#[tactic(auto, unfolding(crate::specs::Signal::as_real))]
pub fn as_real(s: Signal) -> Signal
    ensures { result ≡ as_real s }
{
    match s {
        Signal::Whole(n) => Signal::Real(f32::from(n)),
        Signal::Real(x) => Signal::Real(x),
        Signal::Error => Signal::Error,
        Signal::Absent => Signal::Absent,
    }
}

// The whole number that a signal comes to: 0 where it has none.
#[tactic(auto, unfolding(crate::specs::Signal::whole))]
pub fn as_whole(s: Signal) -> i16
    ensures { result ≡ whole s }
{
    match s {
        Signal::Whole(v) => v,
        Signal::Real(x) => nearest(x),
        Signal::Error | Signal::Absent => 0,
    }
}

pub fn absent(s: Signal) -> bool
    ensures { result ≡ is_absent s }
{
    match s {
        Signal::Absent => true,
        Signal::Whole(_) | Signal::Real(_) | Signal::Error => false,
    }
}

pub fn failed(s: Signal) -> bool
    ensures { result ≡ is_error s }
{
    match s {
        Signal::Error => true,
        Signal::Whole(_) | Signal::Real(_) | Signal::Absent => false,
    }
}
