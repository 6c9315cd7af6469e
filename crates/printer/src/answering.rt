// What a line of the session does to the unit, and what it prints.
ghost use Rattle.std.specs.Prelude.{◌≡◌};
ghost use Rattle.sdo.specs.Served.{after};
ghost use Rattle.printer.specs.Printing.{Printed};
ghost use Rattle.printer.specs.Answering.{decided, shown, state_line, sampled, said, Answers};

use crate::answer_lines::{show_reply, show_tick};
use crate::printing::{show_silent, show_unknown};
use crate::reading::{Request, read};
use controller::tick::tick;
use dictionary::slots::{COMMAND, ERROR_REGISTER, Unit};
use sdo::serving::serve;
use unit::words::{byte_at, whole_at};

// The reply, or -.
fn serve_frame(unit: &mut Unit, frame: &[u8], out: &mut [u8; 64]) -> usize
    ensures state { unit.new ≡ after unit.old (decided unit.old frame.now) }
    ensures print { Printed (shown frame.now (decided unit.old frame.now)) out.old out.new result }
{
    let mut reply = [0u8; 8];
    match serve(unit, frame, &mut reply) {
        Some(_) => show_reply(&reply, out),
        None => show_silent(out),
    }
}

// The four commands 7330h:1-4 and the register 1001h.
fn show_state(unit: &Unit, out: &mut [u8; 64]) -> usize
    ensures { Printed (state_line unit.now) out.old out.new result }
{
    let one = whole_at(unit, COMMAND);
    let two = whole_at(unit, COMMAND + 1);
    let three = whole_at(unit, COMMAND + 2);
    let four = whole_at(unit, COMMAND + 3);
    let register = byte_at(unit, ERROR_REGISTER);
    show_tick([one, two, three, four], register, out)
}

// The state is shown as the tick leaves it.
fn take_tick(unit: &mut Unit, samples: [i16; 4], out: &mut [u8; 64]) -> usize
    ensures { Answers (sampled samples unit.old) unit.new out.old out.new result }
{
    tick(unit, samples);
    show_state(unit, out)
}

// A line comes without its line end, and may be anything.
pub fn answer(unit: &mut Unit, line: &[u8], out: &mut [u8; 64]) -> usize
    ensures { Answers (said line.now unit.old) unit.new out.old out.new result }
{
    match read(line) {
        Some(Request::Frame(frame)) => serve_frame(unit, &frame, out),
        Some(Request::Tick(samples)) => take_tick(unit, samples, out),
        None => show_unknown(out),
    }
}
