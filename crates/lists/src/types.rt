// Why no restore list is made.
use records::types::Refusal;

// Which image is refused and why, or no room for the list.
#[derive(Clone, Copy)]
pub enum Unmade {
    Current(Refusal),
    Wanted(Refusal),
    NoRoom,
}
