// A math block's inputs, scaled and joined from left to right. The fold over them goes input by input, so that whoever holds the settings
// hands in one at a time.
ghost use Rattle.std.specs.Prelude.{◌≡◌};
ghost use Rattle.numbers.specs.Choice.{first};
ghost use Rattle.signals.specs.Signal.{is_error};
ghost use Rattle.math.specs.Math.{scaled, started, joined, ended, broken};
ghost use Rattle.math.specs.Fold as spec;

use crate::{Ends, Fold, Operand, apply};
use numbers::limits::limit;
use signals::reading::{as_real, failed};
use signals::signal::Signal;

// A value of the input whose gain and scaling ends the fold holds.
fn scale(v: f32, fold: Fold) -> f32
    ensures { result ≡ scaled v fold.ends.from fold.ends.to fold.gain }
{
    let ends = fold.ends;
    let from = ends.from as f32;
    let span = ends.to as f32 - from;
    let part = limit((v - from) / span, 0.0, 1.0);
    part * (fold.gain as f32 / 100.0)
}

// Input 1 starts the run; without a number there is none.
pub fn start(input: Operand) -> Fold
    ensures { result ≡ spec.resumed (spec.begun input) (started input) }
{
    let mut fold = Fold {
        run: 0.0,
        gain: input.gain,
        ends: input.ends,
        failed: true,
    };
    let signal = input.signal;
    let Signal::Real(v) = as_real(signal) else {
        return fold;
    };
    let run = scale(v, fold);
    fold.run = run;
    fold.failed = false;
    fold
}

// What has no number: an error breaks the run, a missing signal is skipped with its operator.
fn pass(fold: Fold, signal: Signal) -> Fold
    ensures { result ≡ spec.resumed fold (first (is_error signal) broken (spec.running fold)) }
{
    let mut next = fold;
    if failed(signal) {
        next.failed = true;
    }
    next
}

// The next input with the operator before it.
pub fn join(fold: Fold, operator: u8, input: Operand) -> Fold
    ensures { result ≡ spec.resumed (spec.toward fold input) (joined operator input (spec.running fold)) }
{
    let next = Fold {
        run: fold.run,
        gain: input.gain,
        ends: input.ends,
        failed: fold.failed,
    };
    let signal = input.signal;
    let Signal::Real(v) = as_real(signal) else {
        return pass(next, signal);
    };
    apply(next, operator, scale(v, next))
}

pub fn finish(fold: Fold, ends: Ends) -> Signal
    ensures { result ≡ ended ends (spec.running fold) }
{
    if fold.failed {
        return Signal::Error;
    }
    let low = ends.from as f32;
    let high = ends.to as f32;
    let part = limit(fold.run, 0.0, 1.0);
    Signal::Real(limit(part * (high - low) + low, low, high))
}
