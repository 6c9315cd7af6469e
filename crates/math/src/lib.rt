// A math block: what it is made of, and one step of its operators. Each operation stands in the order that the paper gives, and is
// rounded once. folding.rt joins the inputs; turns.rt has the four blocks in a tick.
#![tactic(auto)]

pub mod folding;
pub mod turns;

ghost use Rattle.std.specs.Prelude.{◌≡◌, ◌&&◌, eqb};
ghost use Rattle.std.specs.Float.Ieee.{eq};
ghost use Rattle.math.specs.Math.{zero, operated, operated_on};
ghost use Rattle.math.specs.Fold as spec;

use numbers::limits::limit;
use signals::signal::Signal;

// Scaling 1 and 2, of an input or of the block's result.
#[derive(Clone, Copy)]
pub struct Ends {
    pub from: i16,
    pub to: i16,
}

// An input: its signal, its scaling, and its gain in per cent.
#[derive(Clone, Copy)]
pub struct Operand {
    pub signal: Signal,
    pub ends: Ends,
    pub gain: i16,
}

// The running result, and the gain and the scaling of the input that joins it. An input in error or a division by zero leaves
// `failed` set.
#[derive(Clone, Copy)]
pub struct Fold {
    pub run: f32,
    pub gain: i16,
    pub ends: Ends,
    pub failed: bool,
}

// Only the comparisons of the paper: where neither is smaller the running result stays.
fn smaller(run: f32, x: f32) -> f32
    ensures { result ≡ operated 4 run x }
{
    if x < run {
        return x;
    }
    run
}

fn larger(run: f32, x: f32) -> f32
    ensures { result ≡ operated 5 run x }
{
    if run < x {
        return x;
    }
    run
}

fn operate(operator: u8, run: f32, x: f32) -> f32
    ensures { result ≡ operated operator run x }
{
    match operator {
        0 => run + x,
        1 => run - x,
        2 => run * x,
        3 => run / x,
        4 => smaller(run, x),
        _ => larger(run, x),
    }
}

// A zero of either sign: `==` does not see the sign.
fn breaks(operator: u8, x: f32) -> bool
    ensures { result ≡ eqb operator 3 && eq x zero }
{
    if operator == 3 {
        return x == 0.0;
    }
    false
}

// The running result with a number that is scaled, by the operator between them.
pub fn apply(fold: Fold, operator: u8, x: f32) -> Fold
    ensures { result ≡ spec.resumed fold (operated_on operator x (spec.running fold)) }
{
    let mut next = fold;
    if next.failed {
        return next;
    }
    if breaks(operator, x) {
        next.failed = true;
        return next;
    }
    let run = limit(operate(operator, fold.run, x), -1.0, 1.0);
    next.run = run;
    next
}
