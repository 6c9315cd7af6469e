// A word of a unit, or of a part of one.
ghost use Rattle.std.specs.Prelude.{◌≡◌, get_or};

// A slot past the last reads 0.
pub fn word_at(words: &[u32], slot: usize) -> u32
    ensures { result ≡ get_or words.now slot 0 }
{
    // `get` gives a pointer back in a struct, which lies otherwise on a 32-bit chip
    if slot < words.len() { words[slot] } else { 0 }
}
