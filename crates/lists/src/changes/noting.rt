// The notes of a list: the places of the records to send, in their order.
ghost use Rattle.std.specs.Prelude.{◌≡◌, ◌+◌, ◌-◌, ◌<◌, ◌≤◌, eqb, length, Ok};
ghost use Rattle.std.proofs.lemmas.List.Edits.{sets};
ghost use Rattle.numbers.specs.Order.{below};
ghost use Rattle.numbers.specs.Signed.{signed16};
ghost use Rattle.sending.specs.Sending.{stretch};
ghost use Rattle.lists.specs.Changes.{place_of, places, noted};
ghost use Rattle.lists.specs.Noting.{word_from, Both, Put, Once, Room, Further};

use super::comparing::{four_before, rises_at, size_at};
use super::types::{Images, Noted};
use dictionary::slots::{EC_VALUE, INPUT_FV1, SPAN_END, SPAN_START};

// One more.
fn put_note(notes: &mut [u16], place: usize, size: usize, up: bool, n: Noted) -> Noted
    requires { Room 1 notes.old n × (place < 65536) × (size ≤ 11) }
    ensures { Put place size up notes.old n notes.new result }
{
    let low = n.low;
    let high = n.high;
    let long = n.long + size;
    if up {
        let next = low - 1;
        notes[next] = place as u16;
        return Noted {
            low: next,
            high: high,
            long: long,
        };
    }
    notes[high] = place as u16;
    Noted {
        low: low,
        high: high + 1,
        long: long,
    }
}

// One entry, if its bytes differ.
fn note_one(images: Images, notes: &mut [u16], place: usize, size: usize, n: Noted) -> Noted
    requires { Both images.current.now images.wanted.now place size × Room 1 notes.old n }
    ensures { Once (eqb (word_from images.entry.current.now place) (word_from images.entry.wanted.now place)) (below (signed16 (word_from images.entry.current.now place)) (signed16 (word_from images.entry.wanted.now place))) place (7 + size) notes.old n notes.new result }
{
    let end = place + 7 + size;
    if four_before(images.current, end) == four_before(images.wanted, end) {
        return n;
    }
    let up = rises_at(images, place, size);
    put_note(notes, place, 7 + size, up, n)
}

// The entries of some slots, in the order of the image.
fn note_stretch(
    images: Images,
    notes: &mut [u16],
    from: usize,
    to: usize,
    at: usize,
    had: Noted,
) -> Noted
    requires { (from ≤ to) × (to ≤ 611) × (at ≡ place_of from) × Room (to - from) notes.old had }
    ensures { Further images.entry.current.now images.entry.wanted.now (stretch from to) notes.old had notes.new result }
{
    let mut n = had;
    let mut place = at;
    for _ in from..to {
        let size = size_at(images.current, place);
        n = note_one(images, notes, place, size, n);
        place += 7 + size;
    }
    n
}

// All entries: 7148h before 7120h, else in the order of the image; each stretch with the place where its first record begins.
pub fn note_all(images: Images, notes: &mut [u16]) -> Noted
    requires { length notes.old ≡ 1222 }
    ensures { (result ≡ noted images.entry.current.now images.entry.wanted.now) × (notes.new ≡ sets notes.old result.low (places images.entry.current.now images.entry.wanted.now)) }
{
    let none = Noted {
        low: EC_VALUE,
        high: EC_VALUE,
        long: 4,
    };
    let first = note_stretch(images, notes, 0, INPUT_FV1, 4, none);
    let second = note_stretch(images, notes, SPAN_START, SPAN_END, 4955, first);
    let third = note_stretch(images, notes, INPUT_FV1, SPAN_START, 4811, second);
    note_stretch(images, notes, SPAN_END, EC_VALUE, 4991, third)
}
