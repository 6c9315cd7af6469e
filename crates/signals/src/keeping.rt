// A signal as two words keep it: its kind, 0 where it is not available, and its number.
ghost use Rattle.std.specs.Prelude.{◌≡◌};
ghost use Rattle.signals.specs.Words.{kind_of, number_of_signal, real_of, of_words};

use crate::signal::Signal;
use numbers::signed::{pattern, signed};

#[tactic(auto, unfolding(crate::specs::Words::kind_of))]
pub fn kind_of(s: Signal) -> u32
    ensures { result ≡ kind_of s }
{
    match s {
        Signal::Whole(_) => 1,
        Signal::Real(_) => 2,
        Signal::Error => 3,
        Signal::Absent => 0,
    }
}

// What is no number has none.
fn bits(x: f32) -> u32
    ensures { result ≡ number_of_signal (Signal.Real x) }
{
    if x.is_nan() { 0 } else { x.to_bits() }
}

#[tactic(auto, unfolding(crate::specs::Words::number_of_signal))]
pub fn number_of(s: Signal) -> u32
    ensures { result ≡ number_of_signal s }
{
    match s {
        Signal::Whole(v) => pattern(v),
        Signal::Real(x) => bits(x),
        Signal::Error | Signal::Absent => 0,
    }
}

// A pattern that is no number is told by its exponent and fraction: from_bits takes none.
pub fn real_of(word: u32) -> f32
    ensures { result ≡ real_of word }
{
    if 0x7F80_0000 < word % 0x8000_0000 {
        return 0.0;
    }
    f32::from_bits(word)
}

#[tactic(auto, unfolding(crate::specs::Words::of_words, numbers::specs::Choice::first))]
pub fn of_words(kind: u32, number: u32) -> Signal
    ensures { result ≡ of_words kind number }
{
    match kind {
        1 => Signal::Whole(signed(number)),
        2 => Signal::Real(real_of(number)),
        3 => Signal::Error,
        _ => Signal::Absent,
    }
}
