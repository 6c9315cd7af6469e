// Sums and differences of INTEGER16 that cannot wrap, since they are made at 32 bits.
ghost use Rattle.std.specs.Prelude.{◌≡◌, ◌+ℤ◌, ◌-ℤ◌};

pub fn sum(a: i16, b: i16) -> i32
    ensures { result ≡ a +ℤ b }
{
    i32::from(a) + i32::from(b)
}

pub fn difference(a: i16, b: i16) -> i32
    ensures { result ≡ a -ℤ b }
{
    i32::from(a) - i32::from(b)
}
