// The answers to a frame and to a tick, into a lent buffer that has room for every answer.
mod put;

ghost use Rattle.printer.specs.Printing.{Printed, reply_line, tick_line};

use crate::answer_lines::put::{put_command, put_hex, put_register};
use octets::putting::put;

// A reply shorter than eight bytes prints nothing.
pub fn show_reply(reply: &[u8], out: &mut [u8; 64]) -> usize
    ensures { Printed (reply_line reply.now) out.old out.new result }
{
    if reply.len() < 8 {
        return 0;
    }
    let mut at: usize = 0;
    for b in &reply[..8] {
        at = put_hex(*b, at, out);
    }
    put(out, at, b"\n");
    at + 1
}

pub fn show_tick(commands: [i16; 4], register: u8, out: &mut [u8; 64]) -> usize
    ensures { Printed (tick_line commands register) out.old out.new result }
{
    put(out, 0, b"O");
    let mut at: usize = 1;
    for command in commands {
        at = put_command(command, at, out);
    }
    put_register(register, at, out)
}
