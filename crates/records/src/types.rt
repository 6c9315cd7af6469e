// What may be said of bytes that should be an image, or a part of one.
ghost use Rattle.std.specs.Prelude.{◌≡◌};
ghost use Rattle.records.specs.Walk.{number};

// The paper's refusals 1 to 8. What is read is so many bytes as they must be, or the first fault in them.
#[derive(Clone, Copy)]
pub enum Refusal {
    EndedEarly,
    WrongCount,
    NotNext,
    WrongSize,
    OutOfRange,
    OutOfOrder,
    LeftOver,
    NoRoom,
}

impl Refusal {
    // The paper's number of it.
    #[tactic(auto, unfolding(crate::specs::Walk::number))]
    pub fn number(self) -> u8
        ensures { result ≡ number self }
    {
        match self {
            Refusal::EndedEarly => 1,
            Refusal::WrongCount => 2,
            Refusal::NotNext => 3,
            Refusal::WrongSize => 4,
            Refusal::OutOfRange => 5,
            Refusal::OutOfOrder => 6,
            Refusal::LeftOver => 7,
            Refusal::NoRoom => 8,
        }
    }
}
