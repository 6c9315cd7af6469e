// One INTEGER16 moved so far: at 32 bits, where nothing wraps.
ghost use Rattle.std.specs.Prelude.{◌≡◌, pos, ◌+ℤ◌, ◌-ℤ◌, ◌≤ℤ◌};
ghost use Rattle.std.specs.Int.{w16};
ghost use Rattle.std.proofs.Common.{SFits};

pub fn raised(a: i16, by: u16) -> i32
    ensures { result ≡ a +ℤ pos by }
{
    i32::from(a) + i32::from(by)
}

pub fn lowered(a: i16, by: u16) -> i32
    ensures { result ≡ a -ℤ pos by }
{
    i32::from(a) - i32::from(by)
}

pub fn narrow(v: i32) -> i16
    requires { SFits w16 v }
    ensures { result ≡ v }
{
    v as i16
}
