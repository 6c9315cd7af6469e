// Whether bytes are an image of a configuration in range and in order, and if not, which refusal comes first.
ghost use Rattle.std.specs.Prelude.{◌≡◌};
ghost use Rattle.image.specs.Reading.{reading};

use order::in_order;
use records::types::Refusal;
use records::walking::walk;

mod order;

// Any bytes of any length.
pub fn check(image: &[u8]) -> Result<(), Refusal>
    ensures { result ≡ reading image.now }
{
    let n = walk(image)?;
    if n < image.len() {
        return Err(Refusal::LeftOver);
    }
    if !in_order(image) {
        return Err(Refusal::OutOfOrder);
    }
    Ok(())
}
