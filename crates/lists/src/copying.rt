// The records of a list, copied as they stand.
ghost use Rattle.std.specs.Prelude.{◌≡◌, ◌+◌, ◌≤◌, ◌<◌, length, take, drop};
ghost use mathlib.Core.List.{◌++◌, flat_map};
ghost use Rattle.std.proofs.lemmas.List.Edits.{sets};
ghost use Rattle.octets.specs.Little.{bytes};
ghost use Rattle.lists.specs.Noting.{Stands, record_from};
ghost use Rattle.lists.specs.Copying.{Standing};

// Four bytes: all are read before one is written, so that they can go as one word. A copy by the library's method calls C's memmove, or gives a slice back
// in a struct, which lies otherwise on a 32-bit chip.
fn put_four(list: &mut [u8], at: usize, wanted: &[u8], place: usize)
    requires { (at + 4 ≤ length list.old) × (place + 4 ≤ length wanted.now) }
    ensures { list.new ≡ sets list.old at (take 4 (drop place wanted.now)) }
{
    let a = wanted[place];
    let b = wanted[place + 1];
    let c = wanted[place + 2];
    let d = wanted[place + 3];
    list[at] = a;
    list[at + 1] = b;
    list[at + 2] = c;
    list[at + 3] = d;
}

// Eight bytes, which no record has fewer of.
fn put_eight(list: &mut [u8], at: usize, wanted: &[u8], place: usize)
    requires { (at + 8 ≤ length list.old) × (place + 8 ≤ length wanted.now) }
    ensures { list.new ≡ sets list.old at (take 8 (drop place wanted.now)) }
{
    put_four(list, at, wanted, place);
    put_four(list, at + 4, wanted, place + 4);
}

// The record that begins at a place of the image, and where the next one goes. It has eight to eleven bytes, so its first eight and its last eight are all
// of it.
fn copy_record(wanted: &[u8], place: usize, list: &mut [u8], at: usize) -> usize
    requires { Stands wanted.now place × (at + length (record_from wanted.now place) ≤ length list.old) }
    ensures { (list.new ≡ sets list.old at (record_from wanted.now place)) × (result ≡ at + length (record_from wanted.now place)) }
{
    let past = wanted[place + 3] as usize - 1;
    put_eight(list, at, wanted, place);
    put_eight(list, at + past, wanted, place + past);
    at + past + 8
}

// The count in four bytes, moved as a word: of a piece whose length it does not know the compiler makes a call of C's memcpy, and libgateway.a asks
// nobody for one.
fn put_count(list: &mut [u8], count: usize)
    requires { 4 ≤ length list.old }
    ensures { list.new ≡ sets list.old 0 (bytes 4 count) }
{
    put_four(list, 0, &count.to_le_bytes(), 0);
}

// The count, and behind it the records.
pub fn write_list(wanted: &[u8], places: &[u16], list: &mut [u8])
    requires { Standing wanted.now places.now × (4 + length (flat_map (record_from wanted.now) places.now) ≤ length list.old) }
    ensures { list.new ≡ sets list.old 0 (bytes 4 (length places.now) ++ flat_map (record_from wanted.now) places.now) }
{
    put_count(list, places.len());
    let mut at: usize = 4;
    for place in places {
        at = copy_record(wanted, *place as usize, list, at);
    }
}
