// What the system says of an argument.
ghost use Rattle.std.specs.Prelude.{◌≡◌, ◌≢◌, ◌↔◌, IsTrue, Err};
ghost use Rattle.std.specs.declared.env.FillError.TheVariants.{NotPresent};

use std::env::FillError;

// Whether there is one; it may be longer than the room for it. No clause can say what the system answers, so the answer is what is judged.
pub fn is_given(answer: Result<usize, FillError>) -> bool
    ensures { IsTrue result ↔ (answer ≢ Err NotPresent) }
{
    !matches!(answer, Err(FillError::NotPresent))
}
