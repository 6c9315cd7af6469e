// Pairs and entries as they are printed.
use dictionary::slots::Unit;
use std::fmt;
use unit::pairs::Pair;
use unit::words::{byte_at, whole_at};

// A source and a number, as they are called: by numbers, since the entries hold those and the answer shows them.
#[derive(Clone, Copy)]
pub struct Called(pub Pair);

impl Called {
    // Whether the pair names something.
    pub fn is_there(self) -> bool {
        let count = match self.0.source {
            1 => 12,
            2 => 4,
            3 => 6,
            4 => 2,
            5 => 4,
            6 => 15,
            _ => 0,
        };
        0 < self.0.number && self.0.number <= count
    }
}

impl fmt::Display for Called {
    fn fmt<W: fmt::Write>(&self, f: &mut fmt::Formatter<W>) -> fmt::Result {
        let Pair { source, number } = self.0;
        match source {
            1 => write!(f, "EC {number}"),
            2 => write!(f, "input {number}"),
            3 => write!(f, "table {number}"),
            4 => write!(f, "logic {number}"),
            5 => write!(f, "math {number}"),
            6 => write!(f, "constant {number}"),
            _ => write!(f, "source {source}, number {number}"),
        }
    }
}

// What stands in an entry, by its name; sub 0 is a VAR's.
#[derive(Clone, Copy)]
pub struct Entry {
    index: u32,
    sub: u8,
    value: i32,
}

pub fn byte_entry(unit: &Unit, slot: usize, index: u32, sub: u8) -> Entry {
    Entry {
        index,
        sub,
        value: i32::from(byte_at(unit, slot)),
    }
}

pub fn integer_entry(unit: &Unit, slot: usize, index: u32, sub: u8) -> Entry {
    Entry {
        index,
        sub,
        value: i32::from(whole_at(unit, slot)),
    }
}

impl fmt::Display for Entry {
    fn fmt<W: fmt::Write>(&self, f: &mut fmt::Formatter<W>) -> fmt::Result {
        let Entry { index, sub, value } = *self;
        if sub == 0 {
            return write!(f, "{index:04x}h = {value}");
        }
        write!(f, "{index:04x}h:{sub} = {value}")
    }
}
