// What a slot's value is: its type and range, and its place in a chain.
#[derive(Clone, Copy)]
pub enum Role {
    // UNSIGNED8
    Axis,
    Switch,
    Response,
    Digits,
    Operator,
    Comparison,
    Source,
    Number,
    Table,
    Byte,
    // REAL32, UNSIGNED16
    Real,
    Time,
    // INTEGER16 with a range of its own; FvLow and FvHigh are the ends of an output's line, 7321h and 7323h
    Positive,
    Gain,
    Current,
    FvLow,
    FvHigh,
    // INTEGER16 with its whole range, alone
    Whole,
    // and in a chain: the points of 30z5h
    FirstX,
    InnerX,
    LastX,
    // the ends of 2520h and 2522h, of 4521h and 4523h as of 4y20h and 4y22h, of 7320h and 7322h
    EcLow,
    EcHigh,
    MathLow,
    MathHigh,
    PvLow,
    PvHigh,
    // 7120h and 7122h between 7148h and 7149h
    LineLow,
    LineHigh,
    SpanLow,
    SpanHigh,
    // UNSIGNED32, which no record of an image holds
    Long,
}

// The neighbour in a chain: none, or the slot that must not be passed, or not even be reached.
#[derive(Clone, Copy)]
pub enum Link {
    Free,
    Loose(usize),
    Strict(usize),
}
