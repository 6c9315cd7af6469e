// An image from its front: the count, then the records, row after row.
pub mod rows;

ghost use Rattle.std.specs.Prelude.{◌≡◌};
ghost use mathlib.Core.List.{flat_map};
ghost use Rattle.records.specs.Rows.{row_of};
ghost use Rattle.records.specs.Walk.{walked, taken_in};

use crate::rows::Row;
use crate::taking::take_record;
use crate::types::Refusal;
use crate::walking::rows::ROWS;
use dictionary::slots::EC_VALUE;
use octets::little::four_at;

// The records of a row, one after the other.
fn take_row(body: &[u8], row: Row) -> Result<usize, Refusal>
    ensures { result ≡ walked (row_of row) body.now }
{
    let mut rest = body;
    for sub in row.first..=row.last {
        let record = take_record(rest, row, sub);
        let Ok(n) = record else {
            return record;
        };
        rest = &rest[n..];
    }
    Ok(body.len() - rest.len())
}

// The records of some rows, one after the other.
fn walk_rows(body: &[u8], rows: &[Row]) -> Result<usize, Refusal>
    ensures { result ≡ walked (flat_map row_of rows.now) body.now }
{
    let mut rest = body;
    for row in rows {
        let records = take_row(rest, *row);
        let Ok(n) = records else {
            return records;
        };
        rest = &rest[n..];
    }
    Ok(body.len() - rest.len())
}

// Any bytes, as an image: its count, then its records.
pub fn walk(image: &[u8]) -> Result<usize, Refusal>
    ensures { result ≡ taken_in image.now }
{
    if image.len() < 4 {
        return Err(Refusal::EndedEarly);
    }
    if four_at(image, 0) as usize != EC_VALUE {
        return Err(Refusal::WrongCount);
    }
    let records = walk_rows(&image[4..], &ROWS);
    let Ok(n) = records else {
        return records;
    };
    Ok(4 + n)
}
