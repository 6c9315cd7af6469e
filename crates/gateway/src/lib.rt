// The list maker for a gateway written in C; restore_list.h tells a C programmer all of it, and `gateway_c` is what C links.
#![tactic(auto)]

ghost use Rattle.std.specs.Prelude.{◌≡◌, Err};
ghost use Rattle.gateway.specs.Restored.{told, Restored};

use lists::make_list;
use lists::types::Unmade;
use records::types::Refusal;

// "-n for the current image, -(10+n) for the wanted, then -8 for room"
#[tactic(auto, unfolding(crate::specs::Restored::told, records::specs::Walk::number))]
fn number_of(unmade: Unmade) -> i32
    ensures { result ≡ told (Err unmade) }
{
    match unmade {
        Unmade::Current(why) => -i32::from(why.number()),
        Unmade::Wanted(why) => -(10 + i32::from(why.number())),
        Unmade::NoRoom => -i32::from(Refusal::NoRoom.number()),
    }
}

// The list's length in bytes, or which image is refused and why, "then -8 for room".
pub fn restore_list(current: &[u8], wanted: &[u8], list: &mut [u8]) -> i32
    ensures { Restored current.now wanted.now list.old list.new result }
{
    match make_list(current, wanted, list) {
        Ok(n) => n as i32,
        Err(unmade) => number_of(unmade),
    }
}
