// Where the values of an index stand, told from the index's digits: a family is one rule, so no row is walked and no table is copied.
// Arms stand in the table's order: what is configured, then what is received or only read.
ghost use Rattle.std.specs.Prelude.{◌+◌, ◌*◌, ◌<◌};
ghost use Rattle.dictionary.specs.Objects.{Rows};

use crate::slots::*;

#[derive(Clone, Copy)]
pub enum Object {
    Unknown,
    // a VAR's slot
    Var(usize),
    // the slot of an ARRAY's sub 1, and its largest sub
    Array(usize, u8),
    // 5010h: subs 1 and 2 are fixed and stand among the read-only names
    Constants,
    // 1003h: sub 0 can be written, the others are read only
    Errors,
}

// 10xxh: the error register and the error list.
fn error_register(low: usize) -> Object
    requires { low < 256 }
    ensures { Rows result (0x1000 + low) }
{
    match low {
        0x03 => Object::Errors,
        0x01 => Object::Var(ERROR_REGISTER),
        _ => Object::Unknown,
    }
}

// 21xxh: detect, hysteresis, delay.
fn input_settings(low: usize) -> Object
    requires { low < 256 }
    ensures { Rows result (0x2100 + low) }
{
    match low {
        0x10 => Object::Array(DETECT, 4),
        0x11 => Object::Array(HYSTERESIS, 4),
        0x12 => Object::Array(DELAY, 4),
        _ => Object::Unknown,
    }
}

// 23xxh: override FV, ramps, and the sources of control, enable, override.
fn output_settings(low: usize) -> Object
    requires { low < 256 }
    ensures { Rows result (0x2300 + low) }
{
    match low {
        0x00 => Object::Array(OVERRIDE_FV, 4),
        0x30 => Object::Array(RAMP_UP, 4),
        0x31 => Object::Array(RAMP_DOWN, 4),
        0x40 => Object::Array(CONTROL_SOURCE, 4),
        0x41 => Object::Array(CONTROL_NUMBER, 4),
        0x50 => Object::Array(ENABLE_SOURCE, 4),
        0x51 => Object::Array(ENABLE_NUMBER, 4),
        0x52 => Object::Array(ENABLE_RESPONSE, 4),
        0x60 => Object::Array(OVERRIDE_SOURCE, 4),
        0x61 => Object::Array(OVERRIDE_NUMBER, 4),
        0x62 => Object::Array(OVERRIDE_RESPONSE, 4),
        _ => Object::Unknown,
    }
}

// 25xxh: the EC values, their digits and scaling.
fn received_values(low: usize) -> Object
    requires { low < 256 }
    ensures { Rows result (0x2500 + low) }
{
    match low {
        0x02 => Object::Array(EC_DIGITS, 12),
        0x20 => Object::Array(EC_FROM, 12),
        0x22 => Object::Array(EC_TO, 12),
        0x00 => Object::Array(EC_VALUE, 12),
        _ => Object::Unknown,
    }
}

// 30znh: seven objects for each table, and the table's output.
fn table_objects(table: usize, n: usize) -> Object
    requires { (table < 6) × (n < 16) }
    ensures { Rows result (0x3010 + n + table * 16) }
{
    let before = (table as u32 * TABLE_ENTRIES as u32) as usize;
    match n {
        0 => Object::Var(TABLE_SOURCE + before),
        1 => Object::Var(TABLE_NUMBER + before),
        2 => Object::Var(TABLE_X_DIGITS + before),
        3 => Object::Var(TABLE_Y_DIGITS + before),
        4 => Object::Array(TABLE_RESPONSE + before, 11),
        5 => Object::Array(TABLE_X + before, 11),
        6 => Object::Array(TABLE_Y + before, 11),
        7 => Object::Var(TABLE_VALUE + table),
        _ => Object::Unknown,
    }
}

// 30xxh: z is 1 to 6.
fn tables(low: usize) -> Object
    requires { low < 256 }
    ensures { Rows result (0x3000 + low) }
{
    let z = low / 16;
    if z < 1 {
        return Object::Unknown;
    }
    if 6 < z {
        return Object::Unknown;
    }
    table_objects(z - 1, low % 16)
}

// 40xxh: logic enable, the selected table's number, the output.
fn logic_blocks(low: usize) -> Object
    requires { low < 256 }
    ensures { Rows result (0x4000 + low) }
{
    match low {
        0x00 => Object::Array(LOGIC_ENABLE, 2),
        0x10 => Object::Array(LOGIC_SELECTED, 2),
        0x20 => Object::Array(LOGIC_VALUE, 2),
        _ => Object::Unknown,
    }
}

// 4xmnh: three tables, three operators, nine conditions of five entries for each logic block.
fn logic_settings(logic: usize, low: usize) -> Object
    requires { (logic < 2) × (low < 256) }
    ensures { Rows result (0x4100 + low + logic * 256) }
{
    let before = (logic as u32 * LOGIC_ENTRIES as u32) as usize;
    match low {
        0x01 => Object::Array(LOGIC_TABLE + before, 3),
        0x02 => Object::Array(LOGIC_OPERATOR + before, 3),
        0x11 => Object::Array(CONDITION + before, 5),
        0x12 => Object::Array(CONDITION + 5 + before, 5),
        0x13 => Object::Array(CONDITION + 10 + before, 5),
        0x21 => Object::Array(CONDITION + 15 + before, 5),
        0x22 => Object::Array(CONDITION + 20 + before, 5),
        0x23 => Object::Array(CONDITION + 25 + before, 5),
        0x31 => Object::Array(CONDITION + 30 + before, 5),
        0x32 => Object::Array(CONDITION + 35 + before, 5),
        0x33 => Object::Array(CONDITION + 40 + before, 5),
        _ => Object::Unknown,
    }
}

// 45xxh: math enable, the end's scaling, digits, the output.
fn math_blocks(low: usize) -> Object
    requires { low < 256 }
    ensures { Rows result (0x4500 + low) }
{
    match low {
        0x00 => Object::Array(MATH_ENABLE, 4),
        0x21 => Object::Array(MATH_FROM, 4),
        0x23 => Object::Array(MATH_TO, 4),
        0x32 => Object::Array(MATH_DIGITS, 4),
        0x30 => Object::Array(MATH_VALUE, 4),
        _ => Object::Unknown,
    }
}

// 4ynnh: six settings of four inputs and three operators for each math block.
fn math_settings(math: usize, low: usize) -> Object
    requires { (math < 4) × (low < 256) }
    ensures { Rows result (0x4600 + low + math * 256) }
{
    let before = (math as u32 * MATH_ENTRIES as u32) as usize;
    match low {
        0x00 => Object::Array(OPERAND_SOURCE + before, 4),
        0x01 => Object::Array(OPERAND_NUMBER + before, 4),
        0x02 => Object::Array(OPERAND_DIGITS + before, 4),
        0x20 => Object::Array(OPERAND_FROM + before, 4),
        0x22 => Object::Array(OPERAND_TO + before, 4),
        0x40 => Object::Array(OPERAND_GAIN + before, 4),
        0x50 => Object::Array(MATH_OPERATOR + before, 3),
        _ => Object::Unknown,
    }
}

// 50xxh: the constants.
fn constants(low: usize) -> Object
    requires { low < 256 }
    ensures { Rows result (0x5000 + low) }
{
    match low {
        0x10 => Object::Constants,
        _ => Object::Unknown,
    }
}

// 61xxh: the inputs' digits.
fn input_digits(low: usize) -> Object
    requires { low < 256 }
    ensures { Rows result (0x6100 + low) }
{
    match low {
        0x32 => Object::Array(INPUT_DIGITS, 4),
        _ => Object::Unknown,
    }
}

// 63xxh: the outputs' digits and fault modes.
fn output_digits(low: usize) -> Object
    requires { low < 256 }
    ensures { Rows result (0x6300 + low) }
{
    match low {
        0x02 => Object::Array(OUTPUT_DIGITS, 4),
        0x40 => Object::Array(FAULT_MODE, 4),
        _ => Object::Unknown,
    }
}

// 71xxh: field values, process values, the lines and spans of the inputs.
fn inputs(low: usize) -> Object
    requires { low < 256 }
    ensures { Rows result (0x7100 + low) }
{
    match low {
        0x20 => Object::Array(INPUT_FV1, 4),
        0x21 => Object::Array(INPUT_PV1, 4),
        0x22 => Object::Array(INPUT_FV2, 4),
        0x23 => Object::Array(INPUT_PV2, 4),
        0x48 => Object::Array(SPAN_START, 4),
        0x49 => Object::Array(SPAN_END, 4),
        0x00 => Object::Array(SAMPLE, 4),
        0x30 => Object::Array(INPUT_PV, 4),
        _ => Object::Unknown,
    }
}

// 73xxh: the lines of the outputs, the commands, the fault values.
fn outputs(low: usize) -> Object
    requires { low < 256 }
    ensures { Rows result (0x7300 + low) }
{
    match low {
        0x20 => Object::Array(OUTPUT_PV1, 4),
        0x21 => Object::Array(OUTPUT_FV1, 4),
        0x22 => Object::Array(OUTPUT_PV2, 4),
        0x23 => Object::Array(OUTPUT_FV2, 4),
        0x41 => Object::Array(FAULT_FV, 4),
        0x30 => Object::Array(COMMAND, 4),
        _ => Object::Unknown,
    }
}

// The rows of the table with an index, in short.
pub fn rows_of(index: u16) -> Object
    ensures { Rows result index }
{
    let high = index as usize / 256;
    let low = index as usize % 256;
    match high {
        0x21 => input_settings(low),
        0x23 => output_settings(low),
        0x25 => received_values(low),
        0x30 => tables(low),
        0x40 => logic_blocks(low),
        0x41 => logic_settings(0, low),
        0x42 => logic_settings(1, low),
        0x45 => math_blocks(low),
        0x46 => math_settings(0, low),
        0x47 => math_settings(1, low),
        0x48 => math_settings(2, low),
        0x49 => math_settings(3, low),
        0x50 => constants(low),
        0x61 => input_digits(low),
        0x63 => output_digits(low),
        0x71 => inputs(low),
        0x73 => outputs(low),
        0x10 => error_register(low),
        _ => Object::Unknown,
    }
}
