// The configuration image: a unit written as one, bytes checked whether they are one, and one read into a unit, all of it or nothing.
#![tactic(auto)]

pub mod reading;
pub mod refusals;
pub mod writing;

ghost use Rattle.std.specs.Prelude.{◌≡◌, ◌++◌, ◌≤◌, length, drop, Ok};
ghost use Rattle.dictionary.specs.Names.{configured};
ghost use Rattle.image.specs.Reading.{reading, configuration_in};
ghost use Rattle.image.specs.Loaded.{Loaded};

use crate::reading::check;
use dictionary::slots::{EC_VALUE, TICKED, Unit};
use records::data::data_in;
use records::types::Refusal;

// The records of an image that was checked go by their own sizes, of which the first byte tells all.
fn load(image: &[u8], unit: &mut [u32])
    requires { (reading image.now ≡ Ok tt) × (configured ≤ length unit.old) }
    ensures { unit.new ≡ configuration_in image.now ++ drop configured unit.old }
{
    let mut rest = &image[4..];
    for slot in 0..EC_VALUE {
        let size = rest[3];
        unit[slot] = data_in(rest, size);
        rest = &rest[7 + size as usize..];
    }
}

// Any bytes; the unit's configuration is the image's only where the whole image is good.
pub fn read(image: &[u8], unit: &mut Unit) -> Result<(), Refusal>
    ensures { Loaded image.now unit.old unit.new result }
{
    check(image)?;
    unit[TICKED] = 0;
    load(image, unit);
    Ok(())
}
