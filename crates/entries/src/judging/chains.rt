// The neighbours of a slot in its chain, by the slot's role.
ghost use Rattle.std.specs.Prelude.{◌≡◌};
ghost use Rattle.roles.specs.Chains.{upper_of, lower_of};
ghost use Rattle.roles.specs.Roles.{Told};

use roles::types::{Link, Role};

pub fn upper(role: Role, slot: usize) -> Link
    requires { Told role slot }
    ensures { result ≡ upper_of slot }
{
    match role {
        Role::FirstX | Role::InnerX => Link::Loose(slot + 1),
        Role::EcLow => Link::Strict(slot + 12),
        Role::MathLow => Link::Strict(slot + 4),
        Role::PvLow | Role::FvLow | Role::LineLow => Link::Strict(slot + 8),
        Role::LineHigh => Link::Loose(slot + 12),
        Role::SpanLow => Link::Loose(slot - 16),
        _ => Link::Free,
    }
}

pub fn lower(role: Role, slot: usize) -> Link
    requires { Told role slot }
    ensures { result ≡ lower_of slot }
{
    match role {
        Role::InnerX => Link::Loose(slot - 1),
        Role::LastX => Link::Loose(slot - 1),
        Role::EcHigh => Link::Strict(slot - 12),
        Role::MathHigh => Link::Strict(slot - 4),
        Role::PvHigh | Role::FvHigh | Role::LineHigh => Link::Strict(slot - 8),
        Role::LineLow => Link::Loose(slot + 16),
        Role::SpanHigh => Link::Loose(slot - 12),
        _ => Link::Free,
    }
}
