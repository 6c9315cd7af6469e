// Where each object's words begin in a unit: the configuration ascending by index then sub, the EC values, the number of errors kept,
// what can only be read,
// and behind these what ticks remember and nobody can read. A place is given once, here, as a sum of what comes before it.
ghost use Rattle.std.specs.Prelude.{◌≡◌};
ghost use Rattle.dictionary.specs.Unit.{places};

// 2110h, 2111h, 2112h :1-4
pub const DETECT: usize = 0;

pub const HYSTERESIS: usize = DETECT + 4;

pub const DELAY: usize = HYSTERESIS + 4;

// 2300h, 2330h, 2331h :1-4
pub const OVERRIDE_FV: usize = DELAY + 4;

pub const RAMP_UP: usize = OVERRIDE_FV + 4;

pub const RAMP_DOWN: usize = RAMP_UP + 4;

// 2340h, 2341h; 2350h, 2351h, 2352h; 2360h, 2361h, 2362h :1-4
pub const CONTROL_SOURCE: usize = RAMP_DOWN + 4;

pub const CONTROL_NUMBER: usize = CONTROL_SOURCE + 4;

pub const ENABLE_SOURCE: usize = CONTROL_NUMBER + 4;

pub const ENABLE_NUMBER: usize = ENABLE_SOURCE + 4;

pub const ENABLE_RESPONSE: usize = ENABLE_NUMBER + 4;

pub const OVERRIDE_SOURCE: usize = ENABLE_RESPONSE + 4;

pub const OVERRIDE_NUMBER: usize = OVERRIDE_SOURCE + 4;

pub const OVERRIDE_RESPONSE: usize = OVERRIDE_NUMBER + 4;

// 2502h, 2520h, 2522h :1-12
pub const EC_DIGITS: usize = OVERRIDE_RESPONSE + 4;

pub const EC_FROM: usize = EC_DIGITS + 12;

pub const EC_TO: usize = EC_FROM + 12;

// 3010h to 3013h, 3014h, 3015h, 3016h :1-11, and the same for each further table
pub const TABLE_SOURCE: usize = EC_TO + 12;

pub const TABLE_NUMBER: usize = TABLE_SOURCE + 1;

pub const TABLE_X_DIGITS: usize = TABLE_NUMBER + 1;

pub const TABLE_Y_DIGITS: usize = TABLE_X_DIGITS + 1;

pub const TABLE_RESPONSE: usize = TABLE_Y_DIGITS + 1;

pub const TABLE_X: usize = TABLE_RESPONSE + 11;

pub const TABLE_LAST_X: usize = TABLE_X + 10;

pub const TABLE_Y: usize = TABLE_X + 11;

pub const TABLE_ENTRIES: usize = TABLE_Y + 11 - TABLE_SOURCE;

// 4000h :1-2
pub const LOGIC_ENABLE: usize = TABLE_SOURCE + 6 * TABLE_ENTRIES;

// 4101h, 4102h :1-3, nine conditions :1-5, and the same for logic 2
pub const LOGIC_TABLE: usize = LOGIC_ENABLE + 2;

pub const LOGIC_OPERATOR: usize = LOGIC_TABLE + 3;

pub const LOGIC_LAST_OPERATOR: usize = LOGIC_OPERATOR + 2;

pub const CONDITION: usize = LOGIC_OPERATOR + 3;

pub const LOGIC_ENTRIES: usize = CONDITION + 9 * 5 - LOGIC_TABLE;

// 4500h, 4521h, 4523h, 4532h :1-4
pub const MATH_ENABLE: usize = LOGIC_TABLE + 2 * LOGIC_ENTRIES;

pub const MATH_FROM: usize = MATH_ENABLE + 4;

pub const MATH_TO: usize = MATH_FROM + 4;

pub const MATH_DIGITS: usize = MATH_TO + 4;

// 4600h, 4601h, 4602h, 4620h, 4622h, 4640h :1-4, 4650h :1-3, and the same for each further math block
pub const OPERAND_SOURCE: usize = MATH_DIGITS + 4;

pub const OPERAND_NUMBER: usize = OPERAND_SOURCE + 4;

pub const OPERAND_DIGITS: usize = OPERAND_NUMBER + 4;

pub const OPERAND_FROM: usize = OPERAND_DIGITS + 4;

pub const OPERAND_TO: usize = OPERAND_FROM + 4;

pub const OPERAND_GAIN: usize = OPERAND_TO + 4;

pub const MATH_OPERATOR: usize = OPERAND_GAIN + 4;

pub const MATH_ENTRIES: usize = MATH_OPERATOR + 3 - OPERAND_SOURCE;

// 5010h :3-15
pub const CONSTANT: usize = OPERAND_SOURCE + 4 * MATH_ENTRIES;

// 6132h; 6302h, 6340h :1-4
pub const INPUT_DIGITS: usize = CONSTANT + 13;

pub const OUTPUT_DIGITS: usize = INPUT_DIGITS + 4;

pub const FAULT_MODE: usize = OUTPUT_DIGITS + 4;

// 7120h, 7121h, 7122h, 7123h; 7148h, 7149h :1-4
pub const INPUT_FV1: usize = FAULT_MODE + 4;

pub const INPUT_PV1: usize = INPUT_FV1 + 4;

pub const INPUT_FV2: usize = INPUT_PV1 + 4;

pub const INPUT_PV2: usize = INPUT_FV2 + 4;

pub const SPAN_START: usize = INPUT_PV2 + 4;

pub const SPAN_END: usize = SPAN_START + 4;

// 7320h, 7321h, 7322h, 7323h, 7341h :1-4
pub const OUTPUT_PV1: usize = SPAN_END + 4;

pub const OUTPUT_FV1: usize = OUTPUT_PV1 + 4;

pub const OUTPUT_PV2: usize = OUTPUT_FV1 + 4;

pub const OUTPUT_FV2: usize = OUTPUT_PV2 + 4;

pub const FAULT_FV: usize = OUTPUT_FV2 + 4;

// The configuration ends here, after the paper's 611 entries (a chain of sums may not be longer). 2500h :1-12
pub const EC_VALUE: usize = 611;

// 1003h:0
pub const ERRORS_KEPT: usize = EC_VALUE + 12;

// What can be written ends here. 1001h; 7100h, 7130h :1-4
pub const ERROR_REGISTER: usize = ERRORS_KEPT + 1;

pub const SAMPLE: usize = ERROR_REGISTER + 1;

pub const INPUT_PV: usize = SAMPLE + 4;

// 3017h to 3067h; 4010h, 4020h :1-2; 4530h, 7330h :1-4
pub const TABLE_VALUE: usize = INPUT_PV + 4;

pub const LOGIC_SELECTED: usize = TABLE_VALUE + 6;

pub const LOGIC_VALUE: usize = LOGIC_SELECTED + 2;

pub const MATH_VALUE: usize = LOGIC_VALUE + 2;

pub const COMMAND: usize = MATH_VALUE + 4;

// 5010h :1-2, which are fixed
pub const FIXED: usize = COMMAND + 4;

// 1003h :1-8
pub const ERRORS: usize = FIXED + 2;

// The dictionary's words end here. The signals of inputs 1-4, math 1-4, tables 1-6 and logic 1-2, each as its kind and its number
pub const SIGNALS: usize = ERRORS + 8;

// Of each input its run of out ticks, and its flag
pub const RUNS: usize = SIGNALS + 2 * 16;

pub const FLAGS: usize = RUNS + 4;

// Of each output what it remembers of its ramp: the ticks counted, and what the count began with: the command, whether it rises, FV1, FV2
// and the ramp in use
pub const RAMP_COUNT: usize = FLAGS + 4;

pub const RAMP_START: usize = RAMP_COUNT + 4;

pub const RAMP_RISING: usize = RAMP_START + 4;

pub const RAMP_FV1: usize = RAMP_RISING + 4;

pub const RAMP_FV2: usize = RAMP_FV1 + 4;

pub const RAMP_USED: usize = RAMP_FV2 + 4;

// The signals as the last tick found them, and whether there was a tick since the start and since the last accepted write
pub const BEFORE: usize = RAMP_USED + 4;

pub const TICKED: usize = BEFORE + 2 * 16;

pub const UNIT: usize = TICKED + 1;

// The whole unit.
pub type Unit = [u32; UNIT];

// The places are the table's slots.
fn places() -> [usize; 86]
    ensures { result ≡ places }
{
    [
        DETECT,
        HYSTERESIS,
        DELAY,
        OVERRIDE_FV,
        RAMP_UP,
        RAMP_DOWN,
        CONTROL_SOURCE,
        CONTROL_NUMBER,
        ENABLE_SOURCE,
        ENABLE_NUMBER,
        ENABLE_RESPONSE,
        OVERRIDE_SOURCE,
        OVERRIDE_NUMBER,
        OVERRIDE_RESPONSE,
        EC_DIGITS,
        EC_FROM,
        EC_TO,
        TABLE_SOURCE,
        TABLE_NUMBER,
        TABLE_X_DIGITS,
        TABLE_Y_DIGITS,
        TABLE_RESPONSE,
        TABLE_X,
        TABLE_LAST_X,
        TABLE_Y,
        LOGIC_ENABLE,
        LOGIC_TABLE,
        LOGIC_OPERATOR,
        LOGIC_LAST_OPERATOR,
        CONDITION,
        MATH_ENABLE,
        MATH_FROM,
        MATH_TO,
        MATH_DIGITS,
        OPERAND_SOURCE,
        OPERAND_NUMBER,
        OPERAND_DIGITS,
        OPERAND_FROM,
        OPERAND_TO,
        OPERAND_GAIN,
        MATH_OPERATOR,
        CONSTANT,
        INPUT_DIGITS,
        OUTPUT_DIGITS,
        FAULT_MODE,
        INPUT_FV1,
        INPUT_PV1,
        INPUT_FV2,
        INPUT_PV2,
        SPAN_START,
        SPAN_END,
        OUTPUT_PV1,
        OUTPUT_FV1,
        OUTPUT_PV2,
        OUTPUT_FV2,
        FAULT_FV,
        EC_VALUE,
        ERRORS_KEPT,
        ERROR_REGISTER,
        SAMPLE,
        INPUT_PV,
        TABLE_VALUE,
        LOGIC_SELECTED,
        LOGIC_VALUE,
        MATH_VALUE,
        COMMAND,
        FIXED,
        ERRORS,
        SIGNALS,
        RUNS,
        FLAGS,
        RAMP_COUNT,
        RAMP_START,
        RAMP_RISING,
        RAMP_FV1,
        RAMP_FV2,
        RAMP_USED,
        BEFORE,
        TICKED,
        UNIT,
        TABLE_ENTRIES,
        LOGIC_ENTRIES,
        MATH_ENTRIES,
        EC_VALUE,
        ERROR_REGISTER,
        SIGNALS,
    ]
}
