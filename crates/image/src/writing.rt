// The image of a configuration, written into a lent buffer.
mod placing;
mod types;

ghost use mathlib.Core.List.{flat_map};
ghost use Rattle.records.specs.Rows.{row_of};
ghost use Rattle.image.specs.Placing.{Room, Placed};
ghost use Rattle.image.specs.Written.{Written};

use crate::writing::placing::{put_number, write_row};
use crate::writing::types::Front;
use dictionary::slots::EC_VALUE;
use records::rows::Row;
use records::types::Refusal;
use records::walking::rows::ROWS;

// An entry of the configuration has a record; the slots behind them begin with the EC values.
const RECORDS: u32 = EC_VALUE as u32;

// The bytes of the count and of the records.
const IMAGE_SIZE: usize = 5_207;

// The records of some rows, one after the other.
fn write_rows(words: &[u32], image: &mut [u8], rows: &[Row], from: Front) -> Front
    requires { Room (flat_map row_of rows.now) from image.old }
    ensures { Placed (flat_map row_of rows.now) words.now from image.old image.new result }
{
    let mut front = from;
    for row in rows {
        front = write_row(words, image, *row, front);
    }
    front
}

// Any words, any buffer: the image of the configuration at the front of the buffer, or nothing where it does not fit.
pub fn write(words: &[u32], image: &mut [u8]) -> Result<(), Refusal>
    ensures { Written words.now image.old image.new result }
{
    if image.len() < IMAGE_SIZE {
        return Err(Refusal::NoRoom);
    }
    put_number(image, 0, 4, RECORDS);
    write_rows(words, image, &ROWS, Front { slot: 0, place: 4 });
    Ok(())
}
