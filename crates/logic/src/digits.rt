// Document 02 (vii): the digits of a source, and two whole numbers compared with theirs.
ghost use Rattle.std.specs.Prelude.{◌≡◌, ◌+◌, ◌-◌, ◌%◌, ◌<◌, pos, ◌*ℤ◌, get_or};
ghost use Rattle.logic.specs.Digits.{within, y_digits, digits_of, tens, orders, in_same_digits};

use dictionary::slots::{
    EC_DIGITS, INPUT_DIGITS, LOGIC_SELECTED, TABLE_ENTRIES, TABLE_Y_DIGITS, Unit,
};
use unit::pairs::Pair;
use unit::words::byte_at;

// The byte of a number from 1 to the count, the first at a slot; 0 for any other number.
fn numbered(unit: &Unit, start: usize, count: u8, number: u8) -> u8
    requires { start < 65536 }
    ensures { result ≡ within count number (get_or unit.now (start + (number - 1)) 0 % 0x100) }
{
    if number == 0 {
        return 0;
    }
    if count < number {
        return 0;
    }
    byte_at(unit, start + (number as usize - 1))
}

fn y_digits(unit: &Unit, z: u8) -> u8
    ensures { result ≡ y_digits unit.now z }
{
    if z == 0 {
        return 0;
    }
    if 6 < z {
        return 0;
    }
    byte_at(
        unit,
        TABLE_Y_DIGITS + (TABLE_ENTRIES as u32 * (z as u32 - 1)) as usize,
    )
}

// A logic block's are those of the table that it selected with its signal.
pub fn digits_of(unit: &Unit, pair: Pair) -> u8
    ensures { result ≡ digits_of unit.now pair.source pair.number }
{
    let Pair { source, number } = pair;
    match source {
        1 => numbered(unit, EC_DIGITS, 12, number),
        2 => numbered(unit, INPUT_DIGITS, 4, number),
        3 => y_digits(unit, number),
        4 => y_digits(unit, numbered(unit, LOGIC_SELECTED, 2, number)),
        _ => 0,
    }
}

fn tens(digits: u8) -> i32
    ensures { result ≡ pos (tens digits) }
{
    match digits {
        0 => 1,
        1 => 10,
        2 => 100,
        _ => 1000,
    }
}

// At most 32768 * 1000 from zero, so that 32 bits hold it exactly.
fn scaled(v: i16, digits: u8) -> i32
    ensures { result ≡ v *ℤ pos (tens digits) }
{
    i32::from(v) * tens(digits)
}

fn order(comparison: u8, x: i32, y: i32) -> bool
    ensures { result ≡ orders comparison x y }
{
    match comparison {
        0 => x == y,
        1 => x != y,
        2 => x > y,
        3 => x >= y,
        4 => x < y,
        _ => x <= y,
    }
}

pub fn in_same_digits(comparison: u8, v: i16, d: u8, w: i16, e: u8) -> bool
    ensures { result ≡ in_same_digits comparison v d w e }
{
    order(comparison, scaled(v, e), scaled(w, d))
}
