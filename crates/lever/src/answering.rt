// What a line of the spool product's session does, and what it prints.
ghost use Rattle.std.specs.Prelude.{◌≡◌};
ghost use Rattle.printer.specs.Printing.{Printed};
ghost use Rattle.lever.specs.Told.{sent_line, sampled, told, Answers};

use dictionary::slots::Unit;
use firmware::{valve_commands, valve_error_register};
use printer::answer_lines::show_tick;
use printer::answering;
use printer::printing::show_unknown;
use printer::reading::{Request, read};
use spool::spool_tick;

// What the coils are sent, the commands of outputs 3 and 4, and the register.
fn show_sent(unit: &Unit, sent: &[i16; 2], out: &mut [u8; 64]) -> usize
    ensures { Printed (sent_line unit.now sent.now) out.old out.new result }
{
    let mut four = [0i16; 4];
    valve_commands(unit, &mut four);
    let register = valve_error_register(unit);
    show_tick([sent[0], sent[1], four[2], four[3]], register, out)
}

fn take_tick(unit: &mut Unit, sent: &mut [i16; 2], samples: [i16; 4], out: &mut [u8; 64]) -> usize
    ensures { Answers (sampled samples unit.old sent.old) unit.new sent.new out.old out.new result }
{
    spool_tick(unit, sent, &samples);
    show_sent(unit, sent, out)
}

// A line comes without its line end, and may be anything.
pub fn answer(unit: &mut Unit, sent: &mut [i16; 2], line: &[u8], out: &mut [u8; 64]) -> usize
    ensures { Answers (told line.now unit.old sent.old) unit.new sent.new out.old out.new result }
{
    if line.len() > 64 {
        return show_unknown(out);
    }
    match read(line) {
        Some(Request::Frame(_)) => answering::answer(unit, line, out),
        Some(Request::Tick(samples)) => take_tick(unit, sent, samples, out),
        None => answering::answer(unit, line, out),
    }
}
