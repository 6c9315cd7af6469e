// A restore list, made from a current and a wanted image.
#![tactic(auto)]

pub mod changes;
mod copying;
pub mod types;

ghost use Rattle.lists.specs.Listing.{Listing};

use crate::changes::find_changes;
use crate::changes::types::NOTES;
use crate::copying::write_list;
use crate::types::Unmade;

// Any bytes, any buffer: the list at the front of the buffer, or nothing where an image is refused or the list does not fit.
pub fn make_list(current: &[u8], wanted: &[u8], list: &mut [u8]) -> Result<usize, Unmade>
    ensures { Listing current.now wanted.now list.old list.new result }
{
    let mut notes: [u16; NOTES] = [0; NOTES];
    let found = find_changes(current, wanted, &mut notes)?;
    if list.len() < found.long {
        return Err(Unmade::NoRoom);
    }
    write_list(wanted, &notes[found.low..found.high], list);
    Ok(found.long)
}
