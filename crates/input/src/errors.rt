// The error list, object 1003h. Input n has row k = n - 1.
ghost use Rattle.std.specs.Prelude.{◌≡◌, ◌+◌, length};
ghost use Rattle.dictionary.specs.Unit.{unit_size};
ghost use Rattle.input.specs.Errors.{entered, noted};

use dictionary::slots::{ERRORS, ERRORS_KEPT, Unit};

// Each entry takes the place of the next one.
fn enter(words: &mut [u32], k: u8)
    requires { length words.old ≡ unit_size }
    ensures { words.new ≡ entered words.old (k + 1) }
{
    let mut next = 0xFF00 + 0x1_0000 * (k as u32 + 1);
    for i in 0..8 {
        let word = words[ERRORS + i];
        words[ERRORS + i] = next;
        next = word;
    }
    words[ERRORS_KEPT] = words[ERRORS_KEPT].saturating_add(1).min(8);
}

pub fn note(unit: &mut Unit, k: u8, was: bool, is: bool)
    ensures { unit.new ≡ noted unit.old (k + 1) was is }
{
    // most ticks find no flag, so that is asked first
    if is {
        if !was {
            enter(unit, k);
        }
    }
}
