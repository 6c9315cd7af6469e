// The yard's command: two image files in, a restore list out; or a line for each entry that differs. The last line on standard output is
// `done` if all went well, and only then: the starter reads it, since the status is 0 either way.
#![tactic(auto)]

mod buffer;
mod files;
mod real;
mod rows;
mod showing;
mod words;

use buffer::ROOM;
use files::{argument, fetch, keep};
use lists::make_list;
use lists::types::Unmade;
use octets::little::four_at;
use records::types::Refusal;
use showing::show;
use std::env::Env;
use terminal::arguments::is_given;

// What was asked for is not done; why is told already, where it can be.
#[derive(Clone, Copy)]
pub struct Undone;

fn words_of(why: Refusal) -> &'static str {
    match why {
        Refusal::EndedEarly => "it ends early",
        Refusal::WrongCount => "it does not count 611 records",
        Refusal::NotNext => "a record is not that of the next entry",
        Refusal::WrongSize => "a record has the wrong size",
        Refusal::OutOfRange => "a value is out of its range",
        Refusal::OutOfOrder => "two values are not in order",
        Refusal::LeftOver => "there are bytes behind the last record",
        Refusal::NoRoom => "there is no room",
    }
}

// The refusal by the paper's number, and in words.
fn refuse(rt: &impl Print, unmade: Unmade) -> Undone {
    let (what, why) = match unmade {
        Unmade::Current(why) => ("current image", why),
        Unmade::Wanted(why) => ("wanted image", why),
        Unmade::NoRoom => ("list", Refusal::NoRoom),
    };
    let number = why.number();
    let words = words_of(why);
    let _ = println!(rt; "{what} refused, {number}: {words}");
    Undone
}

fn count(rt: &impl Print, list: &[u8]) -> Result<(), Undone> {
    let records = four_at(list, 0);
    let bytes = list.len();
    println!(rt; "{records} records, {bytes} bytes").map_err(|_| Undone)
}

// The program's own name is argument 0.
fn has_argument(rt: &impl Env, at: usize) -> bool {
    is_given(rt.arg(at, &mut [0u8; 1]))
}

fn is_argument(rt: &impl Env, at: usize, wanted: &[u8]) -> bool {
    let mut word = [0u8; 4096];
    match argument(rt, at, &mut word) {
        Ok(n) => &word[..n] == wanted,
        Err(_) => false,
    }
}

fn restore(rt: &HostRuntime) -> Result<(), Undone> {
    let shown = is_argument(rt, 1, b"--show");
    let (first, second) = if shown { (2, 3) } else { (1, 2) };
    let current = fetch(rt, first)?;
    let wanted = fetch(rt, second)?;
    let mut room = [0u8; ROOM];
    let long = make_list(current.bytes(), wanted.bytes(), &mut room).map_err(|unmade| refuse(
        rt, unmade,
    ))?;
    let list = room.get(..long).ok_or(Undone)?;
    if shown {
        return show(rt, current.bytes(), list);
    }
    keep(rt, 3, list)?;
    count(rt, list)
}

fn main(rt: HostRuntime) {
    if !has_argument(&rt, 3) || has_argument(&rt, 4) {
        let _ = eprintln!(rt; "restore CURRENT WANTED LIST, or restore --show CURRENT WANTED");
        return;
    }
    if restore(&rt).is_ok() {
        let _ = println!(rt; "done");
    }
}
