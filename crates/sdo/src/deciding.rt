// The answer to a frame: the first row of the paper's table that matches.
ghost use Rattle.std.specs.Prelude.{◌≡◌, ◌<◌, true, false, length, get_or, Some, Ok, MatchOption};
ghost use Rattle.dictionary.specs.Names.{slot_found};
ghost use Rattle.dictionary.specs.Unit.{unit_size};
ghost use Rattle.sdo.specs.Answers.{reading, unclear, writing, obeyed, silent, answer};
ghost use Rattle.sdo.specs.Frames.{command_of};

use super::data::{command, data_in, index_in, sub_in};
use super::types::{Abort, Command, Done};
use dictionary::naming::find;
use dictionary::slots::{ERROR_REGISTER, ERRORS_KEPT, Unit};
use dictionary::types::Named;
use entries::judging::judge;
use roles::widths::width;

fn read(unit: &Unit, named: Named) -> Done
    requires { slot_found (Ok named) < unit_size }
    ensures { Ok result ≡ reading unit.now (Ok named) }
{
    match named {
        Named::Count(n) => Done::Value(u32::from(n), 1),
        Named::At(slot) => Done::Value(unit[slot], width(slot)),
    }
}

fn is_unclear(slot: usize, word: u32) -> bool
    ensures { result ≡ unclear slot word }
{
    slot == ERRORS_KEPT && word != 0
}

fn offer(unit: &Unit, frame: &[u8; 8], size: Option<u8>, slot: usize) -> Result<Done, Abort>
    ensures { result ≡ writing unit.now frame.now size (Ok (Named.At slot)) }
{
    // the configuration, the EC values and 1003h:0 come first
    if ERROR_REGISTER <= slot {
        return Err(Abort::ReadOnly);
    }
    let own = width(slot);
    // a write that does not tell its length has the entry's own
    let length = size.unwrap_or(own);
    if own < length {
        return Err(Abort::TooLong);
    }
    if length < own {
        return Err(Abort::TooShort);
    }
    let word = data_in(frame, own);
    judge(unit, slot, word)?;
    // any byte is good for 1003h:0, so this is soon enough
    if is_unclear(slot, word) {
        return Err(Abort::NotClear);
    }
    Ok(Done::Written(slot, word))
}

fn write(unit: &Unit, frame: &[u8; 8], size: Option<u8>, named: Named) -> Result<Done, Abort>
    ensures { result ≡ writing unit.now frame.now size (Ok named) }
{
    let Named::At(slot) = named else {
        return Err(Abort::ReadOnly);
    };
    offer(unit, frame, size, slot)
}

fn obey(unit: &Unit, frame: &[u8; 8]) -> Result<Done, Abort>
    ensures { result ≡ obeyed unit.now frame.now (command_of (get_or frame.now 0 0)) }
{
    let command = command(frame[0])?;
    let named = find(unit, index_in(frame), sub_in(frame))?;
    match command {
        Command::Read => Ok(read(unit, named)),
        Command::Write(size) => write(unit, frame, size, named),
    }
}

// The eight bytes by value: a pointer that is given back in an Option lies otherwise on a 32-bit chip.
fn eight(frame: &[u8]) -> [u8; 8]
    requires { length frame.now ≡ 8 }
    ensures { result ≡ frame.now }
{
    [
        frame[0], frame[1], frame[2], frame[3], frame[4], frame[5], frame[6], frame[7],
    ]
}

// The frame, if it is answered at all.
fn heard(frame: &[u8], room: usize) -> Option<[u8; 8]>
    ensures { MatchOption result (silent frame.now room ≡ true) (λ f. (silent frame.now room ≡ false) × (f ≡ frame.now)) }
{
    if frame.len() != 8 {
        return None;
    }
    if room < 8 {
        return None;
    }
    if frame[0] == 0x80 {
        return None;
    }
    Some(eight(frame))
}

// Any unit, any frame, any room for the reply; none is silence.
pub fn decide(unit: &Unit, frame: &[u8], room: usize) -> Option<Result<Done, Abort>>
    ensures { result ≡ answer unit.now frame.now room }
{
    let frame = heard(frame, room)?;
    Some(obey(unit, &frame))
}
