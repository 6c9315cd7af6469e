// The record of one entry in two images, by the place where it begins in both.
ghost use Rattle.std.specs.Prelude.{◌≡◌, ◌+◌, ◌-◌, ◌≤◌, length, take, drop};
ghost use Rattle.octets.specs.Little.{little};
ghost use Rattle.numbers.specs.Order.{below};
ghost use Rattle.numbers.specs.Signed.{signed16};
ghost use Rattle.records.specs.Walk.{size_in};
ghost use Rattle.lists.specs.Noting.{Stands, Both, word_from};

use super::types::Images;
use numbers::signed::signed;
use octets::little::{four, two};

// How many bytes of data it has: no record of an image has more than four, so the first byte of the size tells all.
pub fn size_at(image: &[u8], place: usize) -> usize
    requires { Stands image.now place }
    ensures { result ≡ size_in (drop place image.now) }
{
    image[place + 3] as usize
}

// The four bytes before a record's end: its data, and before that of the size what is 0.
pub fn four_before(image: &[u8], end: usize) -> u32
    requires { (4 ≤ end) × (end ≤ length image.now) }
    ensures { result ≡ little (take 4 (drop (end - 4) image.now)) }
{
    four(
        image[end - 4],
        image[end - 3],
        image[end - 2],
        image[end - 1],
    )
}

// Its value as chains read it.
fn number_at(image: &[u8], place: usize, size: usize) -> i16
    requires { Stands image.now place × (size ≡ size_in (drop place image.now)) }
    ensures { result ≡ signed16 (word_from image.now place) }
{
    if size == 1 {
        return signed(image[place + 7] as u32);
    }
    signed(two(image[place + 7], image[place + 8]) as u32)
}

pub fn rises_at(images: Images, place: usize, size: usize) -> bool
    requires { Both images.current.now images.wanted.now place size }
    ensures { result ≡ below (signed16 (word_from images.entry.current.now place)) (signed16 (word_from images.entry.wanted.now place)) }
{
    let first = number_at(images.current, place, size);
    let second = number_at(images.wanted, place, size);
    first < second
}
