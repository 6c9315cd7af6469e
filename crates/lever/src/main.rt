// The spool product's session, for somebody who tries a lever: a session's lines on standard input, and after O what the two coils are sent.
#![tactic(auto)]

mod answering;

use crate::answering::answer;
use dictionary::slots::Unit;
use roles::start::start;
use std::io::{Read, Write};
use terminal::line::Line;
use terminal::writing::write_out;

// The unit, what the coils were sent, and the line that is not finished.
#[derive(Clone, Copy)]
struct Product {
    unit: Unit,
    sent: [i16; 2],
    line: Line,
}

impl Product {
    // The line is whole: its answer is on standard output before more is read. What cannot be written is lost, and the session goes on.
    fn say<W: Write>(&mut self, writer: &mut W) {
        let mut text = [0u8; 64];
        let printed = answer(&mut self.unit, &mut self.sent, self.line.text(), &mut text);
        let _ = write_out(writer, &text[..printed]);
        self.line.clear();
    }

    // LF ends the line, any other byte joins it.
    fn take_byte<W: Write>(&mut self, writer: &mut W, byte: u8) {
        if byte == b'\n' {
            self.say(writer);
            return;
        }
        self.line.join(byte);
    }

    // What cannot be read is the end too, and the last line may lack its line end. A proved loop has to end: no session has so many bytes.
    fn serve<R: Read, W: Write>(&mut self, reader: &mut R, writer: &mut W) {
        for _ in 0..u64::MAX {
            let mut byte = [0u8; 1];
            if reader.read(&mut byte).unwrap_or(0) == 0 {
                break;
            }
            self.take_byte(writer, byte[0]);
        }
        if !self.line.is_empty() {
            self.say(writer);
        }
    }
}

fn main(rt: HostRuntime) {
    let mut product = Product {
        unit: start(),
        sent: [0; 2],
        line: Line::new(),
    };
    product.serve(&mut rt.stdin(), &mut rt.stdout());
}
