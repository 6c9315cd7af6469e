// What a slot's value is, told from where the slot stands among the objects.
ghost use Rattle.std.specs.Prelude.{◌<◌, ◌≤◌};
ghost use Rattle.dictionary.specs.Names.{slot_of};
ghost use Rattle.roles.specs.Roles.{Told};

use crate::types::Role;
use dictionary::slots::*;

// 21xxh, 23xxh, 25xxh.
fn settings_role(slot: usize) -> Role
    requires { slot < slot_of 0x3010 0 }
    ensures { Told result slot }
{
    if slot < HYSTERESIS {
        return Role::Switch;
    }
    if slot < DELAY {
        return Role::Positive;
    }
    if slot < OVERRIDE_FV {
        return Role::Time;
    }
    if slot < RAMP_UP {
        return Role::Current;
    }
    if slot < CONTROL_SOURCE {
        return Role::Time;
    }
    if slot < EC_DIGITS {
        return source_role(slot);
    }
    if slot < EC_FROM {
        return Role::Digits;
    }
    if slot < EC_TO {
        return Role::EcLow;
    }
    Role::EcHigh
}

// 2340h to 2362h: source and number of control; source, number and response of enable and of override.
fn source_role(slot: usize) -> Role
    requires { (slot_of 0x2340 1 ≤ slot) × (slot < slot_of 0x2502 1) }
    ensures { Told result slot }
{
    if slot < CONTROL_NUMBER {
        return Role::Source;
    }
    if slot < ENABLE_SOURCE {
        return Role::Number;
    }
    if slot < ENABLE_NUMBER {
        return Role::Source;
    }
    if slot < ENABLE_RESPONSE {
        return Role::Number;
    }
    if slot < OVERRIDE_SOURCE {
        return Role::Switch;
    }
    if slot < OVERRIDE_NUMBER {
        return Role::Source;
    }
    if slot < OVERRIDE_RESPONSE {
        return Role::Number;
    }
    Role::Switch
}

// 30z0h to 30z6h, as the entries of table 1.
fn table_role(slot: usize) -> Role
    requires { (slot_of 0x3010 0 ≤ slot) × (slot < slot_of 0x4000 1) }
    ensures { Told result slot }
{
    let first = TABLE_SOURCE + (slot - TABLE_SOURCE) % TABLE_ENTRIES;
    if TABLE_Y <= first {
        return Role::Whole;
    }
    if TABLE_LAST_X <= first {
        return Role::LastX;
    }
    if TABLE_X < first {
        return Role::InnerX;
    }
    if TABLE_X <= first {
        return Role::FirstX;
    }
    if TABLE_RESPONSE < first {
        return Role::Response;
    }
    if TABLE_RESPONSE <= first {
        return Role::Axis;
    }
    if TABLE_X_DIGITS <= first {
        return Role::Digits;
    }
    if TABLE_NUMBER <= first {
        return Role::Number;
    }
    Role::Source
}

// 4000h, 4x01h to 4x33h.
fn logic_role(slot: usize) -> Role
    requires { (slot_of 0x4000 1 ≤ slot) × (slot < slot_of 0x4500 1) }
    ensures { Told result slot }
{
    if slot < LOGIC_TABLE {
        return Role::Switch;
    }
    let first = LOGIC_TABLE + (slot - LOGIC_TABLE) % LOGIC_ENTRIES;
    if first < LOGIC_OPERATOR {
        return Role::Table;
    }
    if first < CONDITION {
        return Role::Operator;
    }
    // a condition: source, number, source, number, comparison
    match (first - CONDITION) % 5 {
        0 => Role::Source,
        1 => Role::Number,
        2 => Role::Source,
        3 => Role::Number,
        _ => Role::Comparison,
    }
}

// 4500h to 4532h, 4y00h to 4y50h.
fn math_role(slot: usize) -> Role
    requires { (slot_of 0x4500 1 ≤ slot) × (slot < slot_of 0x5010 3) }
    ensures { Told result slot }
{
    if slot < MATH_FROM {
        return Role::Switch;
    }
    if slot < MATH_TO {
        return Role::MathLow;
    }
    if slot < MATH_DIGITS {
        return Role::MathHigh;
    }
    if slot < OPERAND_SOURCE {
        return Role::Digits;
    }
    operand_role(slot)
}

// 4y00h to 4y50h, as the entries of math 1.
fn operand_role(slot: usize) -> Role
    requires { (slot_of 0x4600 1 ≤ slot) × (slot < slot_of 0x5010 3) }
    ensures { Told result slot }
{
    let first = OPERAND_SOURCE + (slot - OPERAND_SOURCE) % MATH_ENTRIES;
    if first < OPERAND_NUMBER {
        return Role::Source;
    }
    if first < OPERAND_DIGITS {
        return Role::Number;
    }
    if first < OPERAND_FROM {
        return Role::Digits;
    }
    if first < OPERAND_TO {
        return Role::MathLow;
    }
    if first < OPERAND_GAIN {
        return Role::MathHigh;
    }
    if first < MATH_OPERATOR {
        return Role::Gain;
    }
    Role::Comparison
}

// 5010h, 61xxh, 63xxh, 71xxh.
fn input_role(slot: usize) -> Role
    requires { (slot_of 0x5010 3 ≤ slot) × (slot < slot_of 0x7320 1) }
    ensures { Told result slot }
{
    if slot < INPUT_DIGITS {
        return Role::Real;
    }
    if slot < FAULT_MODE {
        return Role::Digits;
    }
    if slot < INPUT_FV1 {
        return Role::Switch;
    }
    if slot < INPUT_PV1 {
        return Role::LineLow;
    }
    if slot < INPUT_FV2 {
        return Role::Whole;
    }
    if slot < INPUT_PV2 {
        return Role::LineHigh;
    }
    if slot < SPAN_START {
        return Role::Whole;
    }
    if slot < SPAN_END {
        return Role::SpanLow;
    }
    Role::SpanHigh
}

// 73xxh.
fn output_role(slot: usize) -> Role
    requires { (slot_of 0x7320 1 ≤ slot) × (slot < slot_of 0x2500 1) }
    ensures { Told result slot }
{
    if FAULT_FV <= slot {
        return Role::Current;
    }
    if slot < OUTPUT_FV1 {
        return Role::PvLow;
    }
    if slot < OUTPUT_PV2 {
        return Role::FvLow;
    }
    if slot < OUTPUT_FV2 {
        return Role::PvHigh;
    }
    Role::FvHigh
}

// 2500h, 1003h and the read-only names. A slot past the last has the narrowest range there is.
fn other_role(slot: usize) -> Role
    requires { slot_of 0x2500 1 ≤ slot }
    ensures { Told result slot }
{
    if slot < ERRORS_KEPT {
        return Role::Whole;
    }
    if slot < SAMPLE {
        return Role::Byte;
    }
    if slot < LOGIC_SELECTED {
        return Role::Whole;
    }
    if slot < LOGIC_VALUE {
        return Role::Byte;
    }
    if slot < MATH_VALUE {
        return Role::Whole;
    }
    if slot < COMMAND {
        return Role::Real;
    }
    if slot < FIXED {
        return Role::Whole;
    }
    if slot < ERRORS {
        return Role::Real;
    }
    if slot < SIGNALS {
        return Role::Long;
    }
    Role::Axis
}

pub fn role_of(slot: usize) -> Role
    ensures { Told result slot }
{
    if slot < CONSTANT {
        if slot < MATH_ENABLE {
            if slot < TABLE_SOURCE {
                return settings_role(slot);
            }
            if slot < LOGIC_ENABLE {
                return table_role(slot);
            }
            return logic_role(slot);
        }
        return math_role(slot);
    }
    if slot < OUTPUT_PV1 {
        return input_role(slot);
    }
    if slot < EC_VALUE {
        return output_role(slot);
    }
    other_role(slot)
}
