// What becomes of an image, as the number that C is told.
ghost use Rattle.std.specs.Prelude.{◌≡◌};
ghost use Rattle.image.specs.Told.{told};

use records::types::Refusal;

// 0, or the refusal's number below zero.
#[tactic(auto, unfolding(crate::specs::Told::told, records::specs::Walk::outcome_number, records::specs::Walk::number))]
pub fn number_of(outcome: Result<(), Refusal>) -> i32
    ensures { result ≡ told outcome }
{
    match outcome {
        Ok(()) => 0,
        Err(why) => -i32::from(why.number()),
    }
}
