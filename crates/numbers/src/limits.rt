// A limit replaces only a value beyond it, so -0 stays.
ghost use Rattle.std.specs.Prelude.{◌≡◌};
ghost use Rattle.std.specs.Ordering.{partial_lt};
ghost use Rattle.numbers.specs.Limit.{limited};

// Of INTEGER16 and of REAL32: what is no number is beyond no limit. Both tests stand before the choice, so that it takes no jump.
#[tactic(auto, unfolding(crate::specs::Limit::limited, crate::specs::Choice::first))]
pub fn limit<T: PartialOrd + Copy>(v: T, low: T, high: T) -> T
    ensures { result ≡ limited (partial_lt T.partial_cmp) v low high }
{
    let below = v < low;
    let above = high < v;
    if below {
        low
    } else if above {
        high
    } else {
        v
    }
}
