// A line for each record of a restore list: its name, what it is, and its value in the current image and in the list.
use super::Undone;
use super::real::Real;
use super::words::Name;
use octets::little::{four_at, two_at};
use records::lookup::look_up;
use signals::keeping::real_of;
use std::fmt;

// The data of a record, as the type of its entry.
#[derive(Clone, Copy)]
struct Value<'a> {
    index: u16,
    bytes: &'a [u8],
}

impl fmt::Display for Value<'_> {
    fn fmt<W: fmt::Write>(&self, f: &mut fmt::Formatter<W>) -> fmt::Result {
        if self.bytes.len() == 4 {
            let real = Real(real_of(four_at(self.bytes, 0)));
            return write!(f, "{real}");
        }
        let pattern = two_at(self.bytes, 0);
        // The times are UNSIGNED16, as bytes are unsigned.
        if self.bytes.len() != 2 || matches!(self.index, 0x2112 | 0x2330 | 0x2331) {
            return write!(f, "{pattern}");
        }
        let whole = pattern.cast_signed();
        write!(f, "{whole}")
    }
}

fn show_record(rt: &impl Print, current: &[u8], record: &[u8]) -> Result<(), Undone> {
    let [low, high, sub, _, _, _, _, data @ ..] = record else {
        return Err(Undone);
    };
    let index = u16::from_le_bytes([*low, *high]);
    let name = Name { index, sub: *sub };
    let old = Value {
        index,
        bytes: look_up(current, index, *sub),
    };
    let new = Value { index, bytes: data };
    println!(rt; "{name}: {old} -> {new}").map_err(|_| Undone)
}

pub fn show(rt: &impl Print, current: &[u8], list: &[u8]) -> Result<(), Undone> {
    let Some((head, records)) = list.split_at_checked(4) else {
        return Err(Undone);
    };
    let mut rest = records;
    for _ in 0..four_at(head, 0) {
        let end = 7 + four_at(rest, 3) as usize;
        let Some((record, behind)) = rest.split_at_checked(end) else {
            return Err(Undone);
        };
        show_record(rt, current, record)?;
        rest = behind;
    }
    Ok(())
}
