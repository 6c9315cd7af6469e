// What an index with a sub-index names, in a unit as it is now.
ghost use Rattle.std.specs.Prelude.{◌≡◌, ◌+◌, ◌<◌};
ghost use Rattle.dictionary.specs.Names.{named, sought};
ghost use Rattle.dictionary.specs.Objects.{meant};

use crate::objects::{Object, rows_of};
use crate::slots::{CONSTANT, ERRORS, ERRORS_KEPT, FIXED, Unit};
use crate::types::{Missing, Named};

fn in_var(slot: usize, sub: u8) -> Result<Named, Missing>
    ensures { result ≡ named (meant (Object.Var slot) 0) sub }
{
    if sub == 0 {
        return Ok(Named::At(slot));
    }
    Err(Missing::Sub)
}

fn in_array(slot: usize, last: u8, sub: u8) -> Result<Named, Missing>
    requires { (slot < 1000) × (0 < last) }
    ensures { result ≡ named (meant (Object.Array slot last) 0) sub }
{
    if sub == 0 {
        return Ok(Named::Count(last));
    }
    if sub <= last {
        return Ok(Named::At(slot + (sub as usize - 1)));
    }
    Err(Missing::Sub)
}

fn in_constants(sub: u8) -> Result<Named, Missing>
    ensures { result ≡ named (meant Object.Constants 0) sub }
{
    if sub == 0 {
        return Ok(Named::Count(15));
    }
    if sub < 3 {
        return Ok(Named::At(FIXED + (sub as usize - 1)));
    }
    if sub <= 15 {
        return Ok(Named::At(CONSTANT + (sub as usize - 3)));
    }
    Err(Missing::Sub)
}

// A sub above the number kept is none.
fn in_errors(unit: &Unit, sub: u8) -> Result<Named, Missing>
    ensures { result ≡ sought unit.now 0x1003 sub }
{
    if sub == 0 {
        return Ok(Named::At(ERRORS_KEPT));
    }
    if unit[ERRORS_KEPT] < sub as u32 {
        return Err(Missing::Sub);
    }
    if sub <= 8 {
        return Ok(Named::At(ERRORS + (sub as usize - 1)));
    }
    Err(Missing::Sub)
}

// For every unit, index and sub.
pub fn find(unit: &Unit, index: u16, sub: u8) -> Result<Named, Missing>
    ensures { result ≡ sought unit.now index sub }
{
    match rows_of(index) {
        Object::Unknown => Err(Missing::Index),
        Object::Var(slot) => in_var(slot, sub),
        Object::Array(slot, last) => in_array(slot, last, sub),
        Object::Constants => in_constants(sub),
        Object::Errors => in_errors(unit, sub),
    }
}
