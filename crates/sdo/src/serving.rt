// Serving a frame: the answer, the word that it writes, the reply.
ghost use Rattle.std.specs.Prelude.{◌≡◌, ◌++◌, ◌≤◌, Some, length, set, drop};
ghost use Rattle.sdo.specs.Frames.{read_command, cut, reply};
ghost use Rattle.sdo.specs.Served.{Served, after, filled};

use crate::deciding::decide;
use crate::types::{Abort, Done};
use dictionary::slots::{TICKED, Unit};

// The eight bytes of a reply, store by store: an array that is made whole and copied costs every frame ten instructions more.
fn respond(frame: &[u8], out: &mut [u8], head: u8, value: u32)
    requires { (length frame.now ≡ 8) × (8 ≤ length out.old) }
    ensures { out.new ≡ reply frame.now head value ++ drop 8 out.old }
{
    let bytes = value.to_le_bytes();
    out[0] = head;
    out[1] = frame[1];
    out[2] = frame[2];
    out[3] = frame[3];
    out[4] = bytes[0];
    out[5] = bytes[1];
    out[6] = bytes[2];
    out[7] = bytes[3];
}

// The reply that shows a value of so many bytes.
fn show(frame: &[u8], out: &mut [u8], word: u32, size: u8)
    requires { (length frame.now ≡ 8) × (8 ≤ length out.old) }
    ensures { out.new ≡ reply frame.now (read_command size) (cut word size) ++ drop 8 out.old }
{
    match size {
        4 => respond(frame, out, 0x43, word),
        2 => respond(frame, out, 0x4B, word % 0x1_0000),
        _ => respond(frame, out, 0x4F, word % 0x100),
    }
}

fn send(frame: &[u8], out: &mut [u8], answer: Result<Done, Abort>)
    requires { (length frame.now ≡ 8) × (8 ≤ length out.old) }
    ensures { out.new ≡ filled out.old frame.now (Some answer) }
{
    match answer {
        Ok(Done::Value(word, size)) => show(frame, out, word, size),
        Ok(Done::Written(_, _)) => respond(frame, out, 0x60, 0),
        Err(abort) => respond(frame, out, 0x80, abort.code()),
    }
}

// A word in its slot, if there is one.
fn put(words: &mut [u32], slot: usize, word: u32)
    ensures { words.new ≡ set words.old slot word }
{
    // where `get_mut` answers None, its contract does not say that the words are as they were
    if slot < words.len() {
        words[slot] = word;
    }
}

fn keep(unit: &mut Unit, answer: Result<Done, Abort>)
    ensures { unit.new ≡ after unit.old (Some answer) }
{
    let Ok(done) = answer else {
        return;
    };
    let Done::Written(slot, word) = done else {
        return;
    };
    put(unit, slot, word);
    unit[TICKED] = 0;
}

// Any unit, any frame, any reply buffer.
pub fn serve(unit: &mut Unit, frame: &[u8], reply: &mut [u8]) -> Option<Result<Done, Abort>>
    ensures { Served unit.old frame.now reply.old unit.new reply.new result }
{
    let answer = decide(unit, frame, reply.len())?;
    keep(unit, answer);
    send(frame, reply, answer);
    Some(answer)
}
