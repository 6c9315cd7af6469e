// The signal of a block, read back from its two words alone.
ghost use Rattle.std.specs.Prelude.{◌≡◌, ◌<◌};
ghost use Rattle.unit.specs.Held.{at_row};

use dictionary::slots::{SIGNALS, Unit};
use signals::keeping::of_words;
use signals::signal::Signal;

pub fn held(unit: &Unit, row: usize) -> Signal
    requires { row < 16 }
    ensures { result ≡ at_row unit.now row }
{
    let at = SIGNALS + 2 * row;
    of_words(unit[at], unit[at + 1])
}
