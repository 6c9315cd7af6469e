// A block's signal laid down as its kind and its number.
ghost use Rattle.std.specs.Prelude.{◌≡◌};
ghost use Rattle.unit.specs.Held.{laid};

use dictionary::slots::{SIGNALS, Unit};
use signals::keeping::{kind_of, number_of};
use signals::signal::Signal;

// A row past the last is no block's: nothing is laid down.
pub fn lay(unit: &mut Unit, row: usize, signal: Signal)
    ensures { unit.new ≡ laid unit.old row signal }
{
    if row < 16 {
        let at = SIGNALS + 2 * row;
        unit[at] = kind_of(signal);
        unit[at + 1] = number_of(signal);
    }
}
