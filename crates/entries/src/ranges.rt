// Judging one value by the range of its role: finite, not above and not below.
ghost use Rattle.std.specs.Prelude.{◌≡◌, is_ok};
ghost use Rattle.entries.specs.Judge.{number_of, finite, within, in_range};
ghost use Rattle.roles.specs.Roles.{ranged};

use super::limits::range_of;
use super::types::Fault;
use dictionary::types::Kind;
use numbers::signed::signed;
use roles::types::Role;

fn number(kind: Kind, word: u32) -> i32
    ensures { result ≡ number_of kind word }
{
    match kind {
        Kind::Unsigned8 => (word % 0x100) as i32,
        Kind::Unsigned16 => (word % 0x1_0000) as i32,
        Kind::Integer16 => signed(word) as i32,
        Kind::Real32 => 0,
        Kind::Unsigned32 => 0,
    }
}

fn is_finite(kind: Kind, word: u32) -> bool
    ensures { result ≡ finite kind word }
{
    match kind {
        Kind::Unsigned8 => true,
        Kind::Unsigned16 => true,
        Kind::Integer16 => true,
        Kind::Real32 => word / 0x80_0000 % 0x100 != 0xFF,
        Kind::Unsigned32 => true,
    }
}

fn judge_number(v: i32, low: i32, high: i32) -> Result<(), Fault>
    ensures { result ≡ within v low high }
{
    if high < v {
        return Err(Fault::Above);
    }
    if v < low {
        return Err(Fault::Below);
    }
    Ok(())
}

fn judge_own(role: Role, word: u32) -> Result<(), Fault>
    ensures { result ≡ in_range (ranged role) word }
{
    let range = range_of(role);
    if is_finite(range.kind, word) {
        return judge_number(number(range.kind, word), range.low, range.high);
    }
    Err(Fault::NotFinite)
}

pub fn judge_range(role: Role, word: u32) -> Result<(), Fault>
    ensures { result ≡ in_range (ranged role) word }
{
    match role {
        // more than a third of the entries have a whole range, where there is nothing to ask
        Role::Long
        | Role::Whole
        | Role::FirstX
        | Role::InnerX
        | Role::LastX
        | Role::EcLow
        | Role::EcHigh
        | Role::MathLow
        | Role::MathHigh
        | Role::PvLow
        | Role::PvHigh
        | Role::LineLow
        | Role::LineHigh
        | Role::SpanLow
        | Role::SpanHigh => Ok(()),
        _ => judge_own(role, word),
    }
}

// Whether a word may stand in the range of a role.
pub fn fits(role: Role, word: u32) -> bool
    ensures { result ≡ is_ok (in_range (ranged role) word) }
{
    judge_range(role, word).is_ok()
}
