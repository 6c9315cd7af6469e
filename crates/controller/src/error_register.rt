// 1001h, told by the inputs' flags.
ghost use Rattle.std.specs.Prelude.{◌≡◌};
ghost use Rattle.controller.specs.Register.{any_flagged, registered};

use dictionary::slots::{ERROR_REGISTER, FLAGS, Unit};

fn any_flagged(unit: &Unit) -> bool
    ensures { result ≡ any_flagged unit.now }
{
    (unit[FLAGS] != 0) | (unit[FLAGS + 1] != 0) | (unit[FLAGS + 2] != 0) | (unit[FLAGS + 3] != 0)
}

// Any words.
pub fn register(unit: &mut Unit)
    ensures { unit.new ≡ registered unit.old }
{
    if any_flagged(unit) {
        unit[ERROR_REGISTER] = 0x21;
    } else {
        unit[ERROR_REGISTER] = 0;
    }
}
