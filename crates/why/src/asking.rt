// What is told of an output: a number, and the bytes of a trail.
ghost use Rattle.std.specs.Prelude.{◌≡◌, [], ◌∷◌, ◌+◌, ◌<◌};
ghost use Rattle.std.proofs.lemmas.List.Edits.{sets};
ghost use Rattle.octets.specs.Little.{bytes};
ghost use Rattle.signals.specs.Words.{kind_of};
ghost use Rattle.output.specs.Output as output;
ghost use Rattle.controller.specs.Commands.{rule_for};
ghost use Rattle.why.specs.Answer as spec;
ghost use Rattle.why.specs.Answer.{decided, Explained};
ghost use Rattle.why.specs.Trail as steps;
ghost use Rattle.why.specs.Seen.{block_of};

use crate::seeing::block_of;
use crate::trailing::{follow, number_of};
use crate::types::Untold;
use dictionary::slots::{
    CONTROL_NUMBER, CONTROL_SOURCE, ENABLE_NUMBER, ENABLE_RESPONSE, ENABLE_SOURCE, OVERRIDE_NUMBER,
    OVERRIDE_RESPONSE, OVERRIDE_SOURCE, TICKED, Unit,
};
use octets::putting::put;
use output::turning::{turned_off, turned_on};
use signals::keeping::{kind_of, number_of as number_kept};
use signals::reading::{absent, failed};
use signals::signal::Signal;
use unit::pairs::Pair;
use unit::rows::Row;
use unit::sources::look_up;

// ---- the rule

fn rule(enable: Signal, enabling: u8, over: Signal, overriding: u8, control: Signal) -> u8
    ensures { result ≡ output.rule enable enabling over overriding control }
{
    if turned_off(enabling, enable) {
        return 1;
    }
    if failed(enable) {
        return 2;
    }
    if turned_on(overriding, over) {
        return 3;
    }
    if failed(over) {
        return 4;
    }
    if failed(control) {
        return 5;
    }
    if absent(control) {
        return 6;
    }
    7
}

fn enable_of(output: Row<'_, 4>) -> Pair
    ensures { result ≡ steps.pair output.entry.unit.now 0x2350 0x2351 (output.entry.k + 1) }
{
    output.pair(ENABLE_SOURCE, ENABLE_NUMBER)
}

fn override_of(output: Row<'_, 4>) -> Pair
    ensures { result ≡ steps.pair output.entry.unit.now 0x2360 0x2361 (output.entry.k + 1) }
{
    output.pair(OVERRIDE_SOURCE, OVERRIDE_NUMBER)
}

fn control_of(output: Row<'_, 4>) -> Pair
    ensures { result ≡ steps.pair output.entry.unit.now 0x2340 0x2341 (output.entry.k + 1) }
{
    output.pair(CONTROL_SOURCE, CONTROL_NUMBER)
}

fn signal_of(unit: &Unit, pair: Pair) -> Signal
    ensures { result ≡ spec.signal unit.now pair }
{
    look_up(unit, pair)
}

fn rule_of(output: Row<'_, 4>) -> u8
    ensures { result ≡ rule_for output.entry.unit.now (output.entry.k + 1) }
{
    let enable = signal_of(output.unit, enable_of(output));
    let over = signal_of(output.unit, override_of(output));
    let control = signal_of(output.unit, control_of(output));
    rule(
        enable,
        output.byte(ENABLE_RESPONSE),
        over,
        output.byte(OVERRIDE_RESPONSE),
        control,
    )
}

fn decider(output: Row<'_, 4>, rule: u8) -> Pair
    ensures { result ≡ spec.decider output.entry.unit.now (output.entry.k + 1) rule }
{
    if rule < 3 {
        return enable_of(output);
    }
    if rule < 5 {
        return override_of(output);
    }
    control_of(output)
}

// ---- the bytes

fn extended(word: u32) -> u32
    ensures { result ≡ spec.extended word }
{
    if word < 0x8000 {
        return word;
    }
    word % 0x1_0000 + 0xFFFF_0000
}

fn value(signal: Signal) -> u32
    ensures { result ≡ spec.value signal }
{
    match signal {
        Signal::Whole(_) => extended(number_kept(signal)),
        Signal::Real(_) => number_kept(signal),
        Signal::Error => 0,
        Signal::Absent => 0,
    }
}

fn head(pair: Pair, kind: u32, value: u32) -> [u8; 7]
    requires { kind < 256 }
    ensures { result ≡ pair.source ∷ pair.number ∷ kind ∷ bytes 4 value }
{
    let [a, b, c, d] = value.to_le_bytes();
    [pair.source, pair.number, kind as u8, a, b, c, d]
}

// The count is known last and stands first.
fn put_trail(unit: &Unit, pair: Pair, block: usize, trail: &mut [u8])
    requires { (block ≡ block_of pair) × (block < 16) }
    ensures { trail.new ≡ sets trail.old 7 (spec.trail_bytes (steps.trail unit.now pair)) }
{
    let walked = follow(unit, pair, block, trail);
    let count = [walked.count];
    put(trail, 7, &count);
    let end = [number_of(walked.end)];
    put(trail, 8 + 2 * walked.count as usize, &end);
}

fn explain(unit: &Unit, pair: Pair, trail: &mut [u8])
    ensures { trail.new ≡ sets trail.old 0 (decided unit.now pair) }
{
    let signal = signal_of(unit, pair);
    let head = head(pair, kind_of(signal), value(signal));
    put(trail, 0, &head);
    // only a block is ever in error
    let Some(block) = block_of(pair) else {
        return;
    };
    if failed(signal) {
        put_trail(unit, pair, block, trail);
    }
}

// Any words, any number, any buffer: what finds no room in it is left out.
pub fn why(unit: &Unit, output: u8, trail: &mut [u8]) -> Result<u8, Untold>
    ensures { Explained unit.now output trail.old trail.new result }
{
    if output == 0 {
        return Err(Untold::NoOutput);
    }
    if 4 < output {
        return Err(Untold::NoOutput);
    }
    if unit[TICKED] == 0 {
        return Err(Untold::NoTick);
    }
    let asked = Row {
        unit,
        k: output as usize - 1,
    };
    let rule = rule_of(asked);
    explain(unit, decider(asked, rule), trail);
    Ok(rule)
}
