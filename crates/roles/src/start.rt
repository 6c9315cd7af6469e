// A fresh unit.
ghost use Rattle.std.specs.Prelude.{◌≡◌, ◌<◌, ◌≤◌, length, get_or};
ghost use Rattle.dictionary.specs.Names.{slot_of, words};
ghost use Rattle.dictionary.specs.Unit.{unit_size};
ghost use Rattle.roles.specs.Values.{starts, at_start};

use dictionary::slots::*;

// 21xxh, 23xxh, 25xxh.
fn settings_start(slot: usize) -> u32
    requires { slot < slot_of 0x3010 0 }
    ensures { result ≡ get_or starts slot 0 }
{
    if slot < HYSTERESIS {
        return 1;
    }
    if slot < DELAY {
        return 100;
    }
    if slot < OVERRIDE_FV {
        return 1000;
    }
    if slot < RAMP_UP {
        return 2000;
    }
    if slot < CONTROL_SOURCE {
        return 1000;
    }
    if slot < EC_TO {
        return 0;
    }
    1000
}

// 30z0h to 30z6h: of each axis 0, 100, .. 1000.
fn table_start(slot: usize) -> u32
    requires { (slot_of 0x3010 0 ≤ slot) × (slot < slot_of 0x4000 1) }
    ensures { result ≡ get_or starts slot 0 }
{
    let first = TABLE_SOURCE + (slot - TABLE_SOURCE) % TABLE_ENTRIES;
    if TABLE_X <= first {
        return ((first - TABLE_X) % 11 * 100) as u32;
    }
    if TABLE_RESPONSE < first {
        return 1;
    }
    0
}

// 4000h, 4x01h to 4x33h: the tables are 1, 2, 3 and 4, 5, 6, the operators 1, 1, 0.
fn logic_start(slot: usize) -> u32
    requires { (slot_of 0x4000 1 ≤ slot) × (slot < slot_of 0x4500 1) }
    ensures { result ≡ get_or starts slot 0 }
{
    if slot < LOGIC_TABLE {
        return 0;
    }
    let first = LOGIC_TABLE + (slot - LOGIC_TABLE) % LOGIC_ENTRIES;
    if first < LOGIC_OPERATOR {
        return ((slot - LOGIC_TABLE) / LOGIC_ENTRIES * 3 + (first - LOGIC_TABLE) + 1) as u32;
    }
    if first < LOGIC_LAST_OPERATOR {
        return 1;
    }
    0
}

// 4500h to 4532h, 4y00h to 4y50h.
fn math_start(slot: usize) -> u32
    requires { (slot_of 0x4500 1 ≤ slot) × (slot < slot_of 0x5010 3) }
    ensures { result ≡ get_or starts slot 0 }
{
    if slot < MATH_TO {
        return 0;
    }
    if slot < MATH_DIGITS {
        return 1000;
    }
    if slot < OPERAND_SOURCE {
        return 0;
    }
    let first = OPERAND_SOURCE + (slot - OPERAND_SOURCE) % MATH_ENTRIES;
    if first < OPERAND_TO {
        return 0;
    }
    if first < OPERAND_GAIN {
        return 1000;
    }
    if first < MATH_OPERATOR {
        return 100;
    }
    0
}

// 5010h, 61xxh, 63xxh, 71xxh.
fn input_start(slot: usize) -> u32
    requires { (slot_of 0x5010 3 ≤ slot) × (slot < slot_of 0x7320 1) }
    ensures { result ≡ get_or starts slot 0 }
{
    if slot < FAULT_MODE {
        return 0;
    }
    if slot < INPUT_FV1 {
        return 1;
    }
    if slot < INPUT_PV1 {
        return 500;
    }
    if slot < INPUT_FV2 {
        return 0;
    }
    if slot < INPUT_PV2 {
        return 4500;
    }
    if slot < SPAN_START {
        return 1000;
    }
    if slot < SPAN_END {
        return 0;
    }
    5000
}

// 73xxh, 2500h, 1003h and what can only be read: 5010h:2 is 1.0.
fn other_start(slot: usize) -> u32
    requires { (slot_of 0x7320 1 ≤ slot) × (slot < words) }
    ensures { result ≡ get_or starts slot 0 }
{
    if slot < OUTPUT_PV2 {
        return 0;
    }
    if slot < OUTPUT_FV2 {
        return 1000;
    }
    if slot < FAULT_FV {
        return 1500;
    }
    if slot <= FIXED {
        return 0;
    }
    if slot < ERRORS {
        return 0x3F80_0000;
    }
    0
}

fn initial(slot: usize) -> u32
    requires { slot < words }
    ensures { result ≡ get_or starts slot 0 }
{
    if slot < TABLE_SOURCE {
        return settings_start(slot);
    }
    if slot < LOGIC_ENABLE {
        return table_start(slot);
    }
    if slot < MATH_ENABLE {
        return logic_start(slot);
    }
    if slot < CONSTANT {
        return math_start(slot);
    }
    if slot < OUTPUT_PV1 {
        return input_start(slot);
    }
    other_start(slot)
}

// A word of the fresh unit: the dictionary's, and behind them zeros, for no tick has remembered anything yet.
fn fresh(slot: usize) -> u32
    requires { slot < unit_size }
    ensures { result ≡ get_or at_start slot 0 }
{
    if slot < SIGNALS {
        return initial(slot);
    }
    0
}

// Lent as a slice, so that its length is known.
fn fill(unit: &mut [u32])
    requires { length unit.old ≡ unit_size }
    ensures { unit.new ≡ at_start }
{
    for row in 0..UNIT as u32 {
        let slot = row as usize;
        unit[slot] = fresh(slot);
    }
}

// In place, so that no second unit stands on the stack.
pub fn start_in(unit: &mut Unit)
    ensures { unit.new ≡ at_start }
{
    fill(unit);
}

pub fn start() -> Unit
    ensures { result ≡ at_start }
{
    let mut unit = [0u32; UNIT];
    start_in(&mut unit);
    unit
}
