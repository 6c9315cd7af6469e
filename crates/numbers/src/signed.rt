// INTEGER16 and the 16-bit pattern that stands for it in a word.
ghost use Rattle.std.specs.Prelude.{◌≡◌};
ghost use Rattle.numbers.specs.Signed.{signed16, pattern16};

// The upper half of the patterns counts from -32768.
pub fn signed(word: u32) -> i16
    ensures { result ≡ signed16 word }
{
    ((word % 0x1_0000) as u16).cast_signed()
}

pub fn pattern(v: i16) -> u32
    ensures { result ≡ pattern16 v }
{
    u32::from(v.cast_unsigned())
}
