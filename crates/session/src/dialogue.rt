// A session, piece by piece: the input is cut into lines at each LF, and each line is answered. Its caller is left with reading and writing.
mod byte;

ghost use Rattle.std.specs.Prelude.{◌≡◌};
ghost use Rattle.printer.specs.Answering.{Answers};
ghost use Rattle.session.specs.Dialogue.{Hears, kept_of, taken, closed};

use crate::dialogue::byte::{respond, take_byte};
use dictionary::slots::Unit;
use terminal::line::{LINE, Line};

// With how many bytes of answers the room begins, and how many bytes of the piece were taken.
#[derive(Clone, Copy)]
pub struct Heard {
    pub printed: usize,
    pub taken: usize,
}

// What of a piece is taken: a byte for each 64 bytes of room.
#[tactic(auto, unfolding(crate::specs::Dialogue::taken))]
fn share<'a>(piece: &'a [u8], room: &[u8]) -> &'a [u8]
    ensures { result.now ≡ taken piece.now room.now }
{
    piece.get(..room.len() / 64).unwrap_or(piece)
}

// A piece of the input. What the room may not suffice for is not taken, and is told. The unit and the line stay two: lent together in one
// struct, the room of its line would have no length that a proof knows.
pub fn hear(unit: &mut Unit, line: &mut Line, piece: &[u8], room: &mut [u8]) -> Heard
    ensures { Hears (kept_of unit.old line.old) piece.now room.old (kept_of unit.new line.new) room.new result.printed result.taken }
{
    let part = share(piece, room);
    line.held = line.held.min(LINE);
    let mut printed = 0;
    for byte in part {
        printed = take_byte(unit, line, *byte, room, printed);
    }
    Heard {
        printed,
        taken: part.len(),
    }
}

// The end of the input: the last line may lack its line end.
pub fn close(unit: &mut Unit, line: &Line, text: &mut [u8; 64]) -> usize
    ensures { Answers (closed (kept_of unit.old line.now)) unit.new text.old text.new result }
{
    if line.held == 0 {
        return 0;
    }
    respond(unit, line, text)
}
