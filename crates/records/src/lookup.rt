// Looking a name up in an image, or in any list of records in the concise layout.
ghost use Rattle.std.specs.Prelude.{◌≡◌, ◌&&◌, ◌≤◌, eqb, length};
ghost use Rattle.records.specs.Walk.{index_in, sub_in};
ghost use Rattle.records.specs.LookUp.{looked, look_up};

use octets::little::{four_at, two_at};

fn is_named(rest: &[u8], index: u16, sub: u8) -> bool
    requires { 7 ≤ length rest.now }
    ensures { result ≡ eqb (index_in rest.now) index && eqb (sub_in rest.now) sub }
{
    two_at(rest, 0) == index && rest[2] == sub
}

// Among so many records.
fn find_in(body: &[u8], count: u32, index: u16, sub: u8) -> &[u8]
    ensures { result.now ≡ looked count index sub body.now }
{
    let mut rest = body;
    for _ in 0..count {
        if rest.len() < 7 {
            return &body[0..0];
        }
        let end = 7 + four_at(rest, 3) as usize;
        if rest.len() < end {
            return &body[0..0];
        }
        if is_named(rest, index, sub) {
            return &rest[7..end];
        }
        rest = &rest[end..];
    }
    &body[0..0]
}

// The record's data as it stands in the caller's bytes; nothing where no record has the name.
pub fn look_up(image: &[u8], index: u16, sub: u8) -> &[u8]
    ensures { result.now ≡ look_up image.now index sub }
{
    if image.len() < 4 {
        return &image[0..0];
    }
    find_in(&image[4..], four_at(image, 0), index, sub)
}
