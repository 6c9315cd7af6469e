// A lookup table over the words of its three entries, lent by the caller; turns.rt has the six of them in a tick.
#![tactic(auto)]

pub mod turns;

ghost use Rattle.std.specs.Prelude.{◌≡◌, ◌<◌};
ghost use Rattle.table.specs.Table.{value, interval, curve, looked_up};

use dictionary::words::word_at;
use numbers::rounding::nearest;
use numbers::signed::signed;
use numbers::whole_line::{Point, line};
use signals::signal::Signal;

const POINTS: usize = 11;

fn at(words: &[u32], k: usize) -> i16
    ensures { result ≡ value words.now k }
{
    signed(word_at(words, k))
}

// The curve over the interval that ends at point k. The three lists go apart from here to the turn: in one struct the compiler no longer knows how long they
// are, and a wired tick misses its bar.
fn piece(response: &[u32], x: &[u32], y: &[u32], v: i16, k: usize) -> i16
    requires { 0 < k }
    ensures { result ≡ interval response.now x.now y.now v k }
{
    let end = at(y, k);
    if word_at(response, k) == 1 {
        let from = Point {
            x: at(x, k - 1),
            y: at(y, k - 1),
        };
        return line(
            from,
            Point {
                x: at(x, k),
                y: end,
            },
            v,
        );
    }
    end
}

// One walk over the points: it ends at the first that is not used, or that v does not pass.
fn curved(response: &[u32], x: &[u32], y: &[u32], v: i16) -> i16
    ensures { result ≡ curve response.now x.now y.now v }
{
    if v <= at(x, 0) {
        return at(y, 0);
    }
    for k in 1..POINTS {
        if word_at(response, k) == 0 {
            return at(y, k - 1);
        }
        if v <= at(x, k) {
            return piece(response, x, y, v, k);
        }
    }
    at(y, POINTS - 1)
}

pub fn look_up(signal: Signal, response: &[u32], x: &[u32], y: &[u32]) -> Signal
    ensures { result ≡ looked_up response.now x.now y.now signal }
{
    match signal {
        Signal::Whole(v) => Signal::Whole(curved(response, x, y, v)),
        Signal::Real(r) => Signal::Whole(curved(response, x, y, nearest(r))),
        Signal::Error => Signal::Error,
        Signal::Absent => Signal::Absent,
    }
}
