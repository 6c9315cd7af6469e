// One number, one record, and the records of one row, each at its place in an image.
ghost use Rattle.std.specs.Prelude.{◌≡◌, [], ◌∷◌, ◌++◌, ◌+◌, ◌≤◌, length, get_or};
ghost use Rattle.std.proofs.lemmas.List.Edits.{sets};
ghost use Rattle.octets.specs.Little.{bytes};
ghost use Rattle.records.specs.Rows.{entry_at, row_of};
ghost use Rattle.image.specs.Placing.{Room, Placed};

use super::types::Front;
use dictionary::words::word_at;
use records::rows::Row;
use roles::widths::width_of;

// So many bytes of a number, low byte first.
pub fn put_number(image: &mut [u8], at: usize, size: usize, number: u32)
    requires { at + size ≤ length image.old }
    ensures { image.new ≡ sets image.old at (bytes size number) }
{
    // a byte at a time from what is left: the library's bytes, cut to the size and put, take twice the time
    let mut rest = number;
    for place in at..at + size {
        image[place] = (rest % 0x100) as u8;
        rest /= 0x100;
    }
}

// The head of a record: its index, its sub, and how many bytes of data follow.
fn put_head(image: &mut [u8], at: usize, row: Row, sub: u8, size: u8)
    requires { at + 7 ≤ length image.old }
    ensures { image.new ≡ sets image.old at (bytes 2 row.index ++ bytes 1 sub ++ bytes 4 size) }
{
    put_number(image, at, 2, row.index as u32);
    put_number(image, at + 2, 1, sub as u32);
    put_number(image, at + 3, 4, size as u32);
}

// The record of what a row holds at a sub.
fn write_record(words: &[u32], image: &mut [u8], row: Row, sub: u8, from: Front) -> Front
    requires { Room (entry_at row sub ∷ []) from image.old }
    ensures { Placed (entry_at row sub ∷ []) words.now from image.old image.new result }
{
    let at = from.place;
    let slot = from.slot;
    let size = width_of(row.role_at(sub));
    put_head(image, at, row, sub, size);
    put_number(image, at + 7, size as usize, word_at(words, slot));
    Front {
        slot: slot + 1,
        place: at + 7 + size as usize,
    }
}

// The records of a row, one after the other.
pub fn write_row(words: &[u32], image: &mut [u8], row: Row, from: Front) -> Front
    requires { Room (row_of row) from image.old }
    ensures { Placed (row_of row) words.now from image.old image.new result }
{
    let mut front = from;
    for sub in row.first..=row.last {
        front = write_record(words, image, row, sub, front);
    }
    front
}
