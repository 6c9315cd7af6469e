// The type and range of a role.
ghost use Rattle.std.specs.Prelude.{◌≡◌};
ghost use Rattle.roles.specs.Roles.{ranged};

use dictionary::types::{Kind, Range};
use roles::types::Role;

fn range(kind: Kind, low: i32, high: i32) -> Range
    ensures { result ≡ record { kind = kind; low = low; high = high } }
{
    Range { kind, low, high }
}

// A REAL32 and an UNSIGNED32 have no range of their own.
pub fn range_of(role: Role) -> Range
    ensures { result ≡ ranged role }
{
    match role {
        Role::Axis => range(Kind::Unsigned8, 0, 0),
        Role::Switch => range(Kind::Unsigned8, 0, 1),
        Role::Response => range(Kind::Unsigned8, 0, 2),
        Role::Digits => range(Kind::Unsigned8, 0, 3),
        Role::Operator => range(Kind::Unsigned8, 0, 4),
        Role::Comparison => range(Kind::Unsigned8, 0, 5),
        Role::Source => range(Kind::Unsigned8, 0, 6),
        Role::Number => range(Kind::Unsigned8, 0, 15),
        Role::Table => range(Kind::Unsigned8, 1, 6),
        Role::Byte => range(Kind::Unsigned8, 0, 255),
        Role::Real => range(Kind::Real32, 0, 0),
        Role::Time => range(Kind::Unsigned16, 0, 60000),
        Role::Positive => range(Kind::Integer16, 0, 32767),
        Role::Gain => range(Kind::Integer16, -100, 100),
        Role::Current | Role::FvLow | Role::FvHigh => range(Kind::Integer16, 0, 2500),
        Role::Long => range(Kind::Unsigned32, 0, 0),
        // alone or in a chain
        _ => range(Kind::Integer16, -32768, 32767),
    }
}
