// What the table of "Names" says of an entry.

#[derive(Clone, Copy)]
pub enum Kind {
    Unsigned8,
    Integer16,
    Unsigned16,
    Real32,
    Unsigned32,
}

// A type with its least and greatest number; a REAL32 has neither, it is finite or not, and an UNSIGNED32 can only be read.
#[derive(Clone, Copy)]
pub struct Range {
    pub kind: Kind,
    pub low: i32,
    pub high: i32,
}

// What an index with a sub-index names: the largest sub-index of an array, or an entry's slot.
#[derive(Clone, Copy)]
pub enum Named {
    Count(u8),
    At(usize),
}

// Which of the two names nothing.
#[derive(Clone, Copy)]
pub enum Missing {
    Index,
    Sub,
}
