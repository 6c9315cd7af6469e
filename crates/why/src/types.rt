// What is told of an output.
use unit::pairs::Pair;

// The most bytes that an answer has: seven of the signal, the count, 17 steps, the end.
pub const TRAIL: usize = 43;

// How a trail ends: with a flagged input, with a division by zero, with a signal taken from the last tick.
#[derive(Clone, Copy)]
pub enum End {
    Flagged,
    Divided,
    Earlier,
}

// Where a block's error comes from.
#[derive(Clone, Copy)]
pub enum Next {
    Ends(End),
    Reads(Pair),
}

// The number of steps of a trail, and how it ends.
#[derive(Clone, Copy)]
pub struct Walked {
    pub count: u8,
    pub end: End,
}

// Why no rule is told.
#[derive(Clone, Copy, Debug, PartialEq, Eq)]
pub enum Untold {
    NoOutput,
    NoTick,
}
