// A logic block: one condition of its table here and in digits.rt, what an operator makes of three in gathering.rt, the two blocks in a tick in turns.rt.
#![tactic(auto)]

mod digits;
pub mod gathering;
pub mod turns;

ghost use Rattle.std.specs.Prelude.{◌≡◌};
ghost use Rattle.logic.specs.Logic.{compares, compared, verdict};
ghost use Rattle.signals.specs.Signal.{as_real};

use signals::reading::{absent, as_real};
use signals::signal::Signal;

// What a condition comes to.
#[derive(Clone, Copy)]
pub enum Verdict {
    False,
    True,
    Error,
    NotAvailable,
}

// Of REAL32; `order` in digits.rt is that of whole numbers in the same digits. One function for both goes by the library's partial_cmp, and where a chip has
// no REAL32 that is up to four calls of the compiler's library for one, and a name more that libfirmware.a asks for.
#[tactic(auto, using(numbers::proofs::Tests::tests), unfolding(crate::specs::Logic::compares, numbers::specs::Choice::first))]
fn compare(comparison: u8, x: f32, y: f32) -> bool
    ensures { result ≡ compares comparison x y }
{
    match comparison {
        0 => x == y,
        1 => x != y,
        2 => x > y,
        3 => x >= y,
        4 => x < y,
        _ => x <= y,
    }
}

// Neither argument is missing here, so one without a number is in error.
fn judge(comparison: u8, left: Signal, right: Signal) -> Verdict
    ensures { result ≡ compared comparison (as_real left) (as_real right) }
{
    let Signal::Real(x) = as_real(left) else {
        return Verdict::Error;
    };
    let Signal::Real(y) = as_real(right) else {
        return Verdict::Error;
    };
    if compare(comparison, x, y) {
        return Verdict::True;
    }
    Verdict::False
}

pub fn condition(left: Signal, right: Signal, comparison: u8) -> Verdict
    ensures { result ≡ verdict left right comparison }
{
    if absent(left) | absent(right) {
        return Verdict::NotAvailable;
    }
    judge(comparison, left, right)
}
