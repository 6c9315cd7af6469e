// The session printer: standard input is read piece by piece, and the answers to a piece are on standard output before more is read.
#![tactic(auto)]

mod dialogue;

ghost use Rattle.std.specs.Prelude.{◌≡◌, ℕ, ◌-◌, ◌^◌, ◌<◌, ◌≤◌, List, length, take, IsOk, OnOk, IfSome};
ghost use Rattle.std.specs.Io.KnownBytes.{Appends, Consumes, IsAtEnd};
ghost use Rattle.roles.specs.Values.{at_start};
ghost use Rattle.session.specs.Dialogue.{kept_of, session};
ghost use Rattle.session.specs.Program.{Turned, Looped};
ghost use Rattle.session.specs.Carried.{Heard, Served};

use crate::dialogue::{close, hear};
use dictionary::slots::Unit;
use roles::start::start;
use std::io;
use std::io::{Read, Write};
use terminal::line::Line;
use terminal::writing::write_out;

// What is read at once, and room for every answer that it can bring: 64 bytes for each of its bytes.
const PIECE: usize = 256;

const ROOM: usize = PIECE * 64;

// The first failure is told in the end.
fn note(outcome: &mut io::Result<()>, done: io::Result<()>)
    ensures { IsOk outcome.new → IsOk outcome.old × IsOk done }
{
    if outcome.is_ok() {
        *outcome = done;
    }
}

// How many bytes came: none at the end of the input, and where it cannot be read.
fn read_once<R: Read>(reader: &mut R, outcome: &mut io::Result<()>, piece: &mut [u8]) -> usize
    ensures within { result ≤ length piece.new }
    ensures bytes { Consumes (R.remaining reader.old) (R.remaining reader.new) (take result piece.new) }
    ensures noted { IsOk outcome.new → IsOk outcome.old }
    ensures end { IsOk outcome.new → result ≡ 0 → 0 < length piece.new → IsAtEnd (R.remaining reader.new) }
{
    match reader.read(piece) {
        Ok(n) => n,
        Err(error) => {
            note(outcome, Err(error));
            0
        }
    }
}

// What cannot be written is lost, and the session goes on.
fn say<W: Write>(writer: &mut W, outcome: &mut io::Result<()>, text: &[u8])
    ensures noted { IsOk outcome.new → IsOk outcome.old }
    ensures bytes { IsOk outcome.new → Appends (W.contents writer.old) (W.contents writer.new) text.now }
{
    let written = write_out(writer, text);
    note(outcome, written);
}

// Reads once and answers what came; whether there may be more.
fn turn<R: Read, W: Write>(
    reader: &mut R,
    writer: &mut W,
    outcome: &mut io::Result<()>,
    unit: &mut Unit,
    line: &mut Line,
) -> bool
    ensures turned { Turned (kept_of unit.old line.old) (kept_of unit.new line.new) result }
    ensures noted { IsOk outcome.new → IsOk outcome.old }
    ensures carried { IsOk outcome.new → Heard (kept_of unit.old line.old) (R.remaining reader.old) (W.contents writer.old) (kept_of unit.new line.new) result (R.remaining reader.new) (W.contents writer.new) }
{
    let mut piece = [0u8; PIECE];
    let n = read_once(reader, outcome, &mut piece);
    if n == 0 {
        return false;
    }
    let mut room = [0u8; ROOM];
    let printed = hear(unit, line, &piece[..n], &mut room).printed;
    say(writer, outcome, &room[..printed]);
    true
}

// A proved loop has to end, and nothing says that the input does: the turns are as many as no session uses up.
fn serve<R: Read, W: Write>(
    reader: &mut R,
    writer: &mut W,
    outcome: &mut io::Result<()>,
    unit: &mut Unit,
    line: &mut Line,
)
    ensures looped { Looped (kept_of unit.old line.old) (kept_of unit.new line.new) }
    ensures noted { IsOk outcome.new → IsOk outcome.old }
    ensures carried { IsOk outcome.new → Served (kept_of unit.old line.old) (R.remaining reader.old) (W.contents writer.old) (kept_of unit.new line.new) (R.remaining reader.new) (W.contents writer.new) }
{
    for _turn in 0..u64::MAX {
        if !turn(reader, writer, outcome, unit, line) {
            return;
        }
    }
}

// A whole session: where nothing fails, what the writer is given is what the reader's input prints.
fn converse<R: Read, W: Write>(reader: &mut R, writer: &mut W) -> io::Result<()>
    ensures { OnOk result (IfSome (R.remaining reader.old) (λ (input : List ℕ). length input < 2 ^ 64 - 1 → Appends (W.contents writer.old) (W.contents writer.new) (session input at_start).printed)) }
{
    let mut outcome = Ok(());
    let mut unit = start();
    let mut line = Line::new();
    serve(reader, writer, &mut outcome, &mut unit, &mut line);
    let mut text = [0u8; 64];
    let printed = close(&mut unit, &line, &mut text);
    say(writer, &mut outcome, &text[..printed]);
    outcome
}

// What failed is told to nobody, and the status is 0.
fn main(rt: HostRuntime) {
    let _ = converse(&mut rt.stdin(), &mut rt.stdout());
}
