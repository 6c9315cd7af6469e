// Whether a signal turns an output on or off.
ghost use Rattle.std.specs.Prelude.{◌≡◌, not, eqb};
ghost use Rattle.numbers.specs.Choice.{first};
ghost use Rattle.output.specs.Turning.{turned_on, turned_off};

use signals::signal::Signal;

// Response 1 turns on and off round.
fn turned(response: u8, on: bool) -> bool
    ensures { result ≡ first (eqb response 1) (not on) on }
{
    if response == 1 {
        return !on;
    }
    on
}

// Only a number is on or off.
pub fn turned_on(response: u8, signal: Signal) -> bool
    ensures { result ≡ turned_on response signal }
{
    match signal {
        Signal::Whole(v) => turned(response, v != 0),
        Signal::Real(x) => turned(response, x != 0.0),
        Signal::Error => false,
        Signal::Absent => false,
    }
}

pub fn turned_off(response: u8, signal: Signal) -> bool
    ensures { result ≡ turned_off response signal }
{
    match signal {
        Signal::Whole(v) => turned(response, v == 0),
        Signal::Real(x) => turned(response, x == 0.0),
        Signal::Error => false,
        Signal::Absent => false,
    }
}
