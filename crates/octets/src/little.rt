// Numbers and their bytes, low byte first.
ghost use Rattle.std.specs.Prelude.{◌≡◌, [], ◌∷◌, take, drop};
ghost use Rattle.octets.specs.Little.{little};

#[tactic(auto, unfolding(crate::specs::Little::little))]
pub fn two(a: u8, b: u8) -> u16
    ensures { result ≡ little (a ∷ b ∷ []) }
{
    u16::from_le_bytes([a, b])
}

#[tactic(auto, unfolding(crate::specs::Little::little))]
pub fn four(a: u8, b: u8, c: u8, d: u8) -> u32
    ensures { result ≡ little (a ∷ b ∷ c ∷ d ∷ []) }
{
    u32::from_le_bytes([a, b, c, d])
}

// The two bytes at a place; one that is not there counts as 0.
pub fn two_at(bytes: &[u8], at: usize) -> u16
    ensures { result ≡ little (take 2 (drop at bytes.now)) }
{
    if at >= bytes.len() {
        return 0;
    }
    match &bytes[at..] {
        [a, b, ..] => two(*a, *b),
        [a] => two(*a, 0),
        [] => 0,
    }
}

// The four bytes at a place, the same way.
pub fn four_at(bytes: &[u8], at: usize) -> u32
    ensures { result ≡ little (take 4 (drop at bytes.now)) }
{
    if at >= bytes.len() {
        return 0;
    }
    match &bytes[at..] {
        [a, b, c, d, ..] => four(*a, *b, *c, *d),
        [a, b, c] => four(*a, *b, *c, 0),
        [a, b] => four(*a, *b, 0, 0),
        [a] => four(*a, 0, 0, 0),
        [] => 0,
    }
}
