// The service technician's command: a session's lines on standard input, then in words why an output has its command, a line for each step
// of the trail. The last line on standard output is `done` if a rule was told, and only then: the starter reads it, since the
// status is 0 either way.
#![tactic(auto)]

mod hearing;
mod saying;
mod telling;

use hearing::hear_all;
use roles::start::start;
use std::env::Env;
use telling::Account;
use terminal::arguments::is_given;
use why::asking::why;
use why::types::{TRAIL, Untold};

// The output that a word names; 0 where it is no digit.
fn number_in(word: &[u8]) -> u8 {
    match word {
        [digit] => digit.saturating_sub(b'0'),
        _ => 0,
    }
}

// The program's own name is argument 0.
fn has_argument(rt: &impl Env, at: usize) -> bool {
    is_given(rt.arg(at, &mut [0u8; 1]))
}

// What cannot be written is lost.
fn main(rt: HostRuntime) {
    if !has_argument(&rt, 1) || has_argument(&rt, 2) {
        let _ = eprintln!(rt; "service OUTPUT");
        return;
    }
    let mut word = [0u8; 4096];
    let n = rt.arg(1, &mut word).unwrap_or(0);
    let output = number_in(&word[..n]);
    let mut unit = start();
    hear_all(&mut rt.stdin(), &mut unit);
    let mut trail = [0u8; TRAIL];
    let _ = match why(&unit, output, &mut trail) {
        Ok(rule) => {
            let account = Account {
                unit: &unit,
                output,
                rule,
                trail: &trail,
            };
            println!(rt; "{account}done")
        }
        Err(Untold::NoOutput) => println!(rt; "there is no such output: there are 1 to 4"),
        Err(Untold::NoTick) => {
            println!(rt; "there was no tick since the start or the last accepted write")
        }
    };
}
