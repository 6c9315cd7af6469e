// One byte of the input: it joins the line, or ends it and the line is answered.
ghost use Rattle.std.specs.Prelude.{◌+◌, ◌≤◌, length};
ghost use Rattle.printer.specs.Answering.{Answers};
ghost use Rattle.session.specs.Dialogue.{kept_of};
ghost use Rattle.session.specs.Byte.{Taken, Finished, ending};

use dictionary::slots::Unit;
use octets::putting::put;
use printer::answering::answer;
use printer::printing::show_unknown;
use terminal::line::{LINE, Line};

// What answers a line that has come to its end.
pub fn respond(unit: &mut Unit, line: &Line, text: &mut [u8; 64]) -> usize
    ensures { Answers (ending (kept_of unit.old line.now)) unit.new text.old text.new result }
{
    if line.held >= LINE {
        return show_unknown(text);
    }
    answer(unit, line.text(), text)
}

// The line has come to its end: its answer goes behind those that are there. The room and the place in it stay two, as the contract of `hear`
// speaks of the room that its caller lends.
fn finish(unit: &mut Unit, line: &Line, room: &mut [u8], printed: usize) -> usize
    requires { printed + 64 ≤ length room.old }
    ensures { Finished (ending (kept_of unit.old line.now)) room.old printed unit.new room.new result }
{
    let mut text = [0u8; 64];
    let count = respond(unit, line, &mut text);
    put(room, printed, &text[..count]);
    printed + count
}

// One byte of the input: LF ends the line, any other byte joins it; what is past the line's room is not kept.
pub fn take_byte(
    unit: &mut Unit,
    line: &mut Line,
    byte: u8,
    room: &mut [u8],
    printed: usize,
) -> usize
    requires { printed + 64 ≤ length room.old }
    ensures { Taken (kept_of unit.old line.old) byte room.old printed (kept_of unit.new line.new) room.new result }
{
    if byte == b'\n' {
        let more = finish(unit, line, room, printed);
        line.clear();
        return more;
    }
    line.join(byte);
    printed
}
