// What passes between all blocks: "a whole number, a REAL32, an error or not available".
#[derive(Clone, Copy)]
pub enum Signal {
    Whole(i16),
    Real(f32),
    Error,
    Absent,
}
