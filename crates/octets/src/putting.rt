// A piece of bytes put into a lent buffer. What finds no room there is left out, so nothing has to be shown before a call.
ghost use Rattle.std.specs.Prelude.{◌≡◌};
ghost use Rattle.std.proofs.lemmas.List.Edits.{sets};

// How many bytes go is settled before the first one does: with one test a byte they can go as words. copy_from_slice calls C's memmove, and
// what C links may call only memcpy and memset.
pub fn put(buffer: &mut [u8], at: usize, piece: &[u8])
    ensures { buffer.new ≡ sets buffer.old at piece.now }
{
    if at >= buffer.len() {
        return;
    }
    let count = piece.len().min(buffer.len() - at);
    for k in 0..count {
        buffer[at + k] = piece[k];
    }
}
