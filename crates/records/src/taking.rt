// One record of an image, from the front of what is left of it.
ghost use Rattle.std.specs.Prelude.{◌≡◌, ◌≤◌, length, Some};
ghost use Rattle.dictionary.specs.Rows.{width};
ghost use Rattle.roles.specs.Roles.{ranged};
ghost use Rattle.records.specs.Rows.{role_at, greatest, entry_at};
ghost use Rattle.records.specs.Walk.{sized, decoded};

use crate::data::data_in;
use crate::rows::Row;
use crate::types::Refusal;
use entries::ranges::fits;
use octets::little::{four_at, two_at};
use roles::types::Role;
use roles::widths::width_of;

// A record of a role and its size.
fn take_sized(rest: &[u8], row: Row, sub: u8, role: Role, size: u8) -> Result<usize, Refusal>
    requires { (role ≡ role_at row sub) × (size ≡ width (ranged role).kind) }
    ensures { result ≡ sized (entry_at row sub) rest.now }
{
    if four_at(rest, 3) != size as u32 {
        return Err(Refusal::WrongSize);
    }
    if rest.len() < 7 + size as usize {
        return Err(Refusal::EndedEarly);
    }
    if fits(role, data_in(rest, size)) {
        return Ok(7 + size as usize);
    }
    Err(Refusal::OutOfRange)
}

// The greatest value of a byte that begins at 0.
fn greatest_of(role: Role) -> Option<u8>
    ensures { result ≡ greatest role }
{
    match role {
        Role::Axis => Some(0),
        Role::Switch => Some(1),
        Role::Response => Some(2),
        Role::Digits => Some(3),
        Role::Operator => Some(4),
        Role::Comparison => Some(5),
        Role::Source => Some(6),
        Role::Number => Some(15),
        _ => None,
    }
}

// A byte from 0 to its greatest value, as every second entry is.
fn take_small(rest: &[u8], row: Row, sub: u8, most: u8) -> Result<usize, Refusal>
    requires { Some most ≡ greatest (role_at row sub) }
    ensures { result ≡ sized (entry_at row sub) rest.now }
{
    if four_at(rest, 3) != 1 {
        return Err(Refusal::WrongSize);
    }
    if rest.len() < 8 {
        return Err(Refusal::EndedEarly);
    }
    if (most as u32) < data_in(rest, 1) % 0x100 {
        return Err(Refusal::OutOfRange);
    }
    Ok(8)
}

// An INTEGER16 with its whole range.
fn take_whole(rest: &[u8], row: Row, sub: u8) -> Result<usize, Refusal>
    requires { role_at row sub ≡ Role.Whole }
    ensures { result ≡ sized (entry_at row sub) rest.now }
{
    if four_at(rest, 3) != 2 {
        return Err(Refusal::WrongSize);
    }
    if rest.len() < 9 {
        return Err(Refusal::EndedEarly);
    }
    Ok(9)
}

// A record whose name is right.
fn take_named(rest: &[u8], row: Row, sub: u8) -> Result<usize, Refusal>
    ensures { result ≡ sized (entry_at row sub) rest.now }
{
    let role = row.role_at(sub);
    if let Some(most) = greatest_of(role) {
        return take_small(rest, row, sub, most);
    }
    match role {
        Role::Whole => take_whole(rest, row, sub),
        _ => take_sized(rest, row, sub, role, width_of(role)),
    }
}

// Any bytes.
pub fn take_record(rest: &[u8], row: Row, sub: u8) -> Result<usize, Refusal>
    ensures { result ≡ decoded (entry_at row sub) rest.now }
{
    if rest.len() < 7 {
        return Err(Refusal::EndedEarly);
    }
    if two_at(rest, 0) != row.index {
        return Err(Refusal::NotNext);
    }
    if rest[2] != sub {
        return Err(Refusal::NotNext);
    }
    take_named(rest, row, sub)
}
