// How wide a value is, by its role and by its slot.
ghost use Rattle.std.specs.Prelude.{◌≡◌};
ghost use Rattle.dictionary.specs.Rows.{width};
ghost use Rattle.roles.specs.Roles.{ranged};
ghost use Rattle.roles.specs.Values.{range_of};

use crate::telling::role_of;
use crate::types::Role;

// The bytes of a role's type.
pub fn width_of(role: Role) -> u8
    ensures { result ≡ width (ranged role).kind }
{
    match role {
        Role::Axis
        | Role::Switch
        | Role::Response
        | Role::Digits
        | Role::Operator
        | Role::Comparison
        | Role::Source
        | Role::Number
        | Role::Table
        | Role::Byte => 1,
        Role::Real => 4,
        Role::Long => 4,
        _ => 2,
    }
}

// The bytes of a slot's type. A slot past the last has the range 0..0.
pub fn width(slot: usize) -> u8
    ensures { result ≡ width (range_of slot).kind }
{
    width_of(role_of(slot))
}
