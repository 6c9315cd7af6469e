// What is found between two images.
ghost use Rattle.std.specs.Prelude.{◌≡◌, Ok};
ghost use Rattle.image.specs.Reading.{reading};

use dictionary::slots::EC_VALUE;

// Two images that are good: what a unit holds, and what it is to hold.
#[derive(Clone, Copy)]
pub struct Images<'a> {
    pub current: &'a [u8],
    pub wanted: &'a [u8],
    ghost current_good: { reading current.now ≡ Ok tt },
    ghost wanted_good: { reading wanted.now ≡ Ok tt },
}

// Room for every entry of the configuration before the middle, and for every one behind it.
pub const NOTES: usize = EC_VALUE + EC_VALUE;

// The places of the records to send: the notes from one on to before another; and how many bytes their list has.
#[derive(Clone, Copy)]
pub struct Noted {
    pub low: usize,
    pub high: usize,
    pub long: usize,
}
