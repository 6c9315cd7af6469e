// The answer in words: a line for the rule, and for an error a line for each step of its trail, each with the entries that matter.
ghost use Rattle.std.specs.Prelude.{◌<◌};

use super::saying::{Called, Entry, byte_entry, integer_entry};
use dictionary::slots::{
    COMMAND, CONTROL_NUMBER, CONTROL_SOURCE, ENABLE_NUMBER, ENABLE_RESPONSE, ENABLE_SOURCE,
    FAULT_FV, FAULT_MODE, LOGIC_SELECTED, MATH_ENTRIES, MATH_OPERATOR, OPERAND_NUMBER,
    OPERAND_SOURCE, OVERRIDE_FV, OVERRIDE_NUMBER, OVERRIDE_RESPONSE, OVERRIDE_SOURCE, SAMPLE,
    SPAN_END, SPAN_START, TABLE_ENTRIES, TABLE_NUMBER, TABLE_SOURCE, Unit,
};
use signals::keeping::{number_of, of_words};
use signals::reading::{as_whole, failed};
use signals::signal::Signal;
use std::fmt;
use std::fmt::{Formatter, Write};
use unit::pairs::Pair;
use unit::words::byte_at;
use why::types::{End, TRAIL};

// The rule that gave an output its command, and the trail to where an error began.
#[derive(Clone, Copy)]
pub struct Account<'a> {
    pub unit: &'a Unit,
    pub output: u8,
    pub rule: u8,
    pub trail: &'a [u8; TRAIL],
}

impl fmt::Display for Account<'_> {
    fn fmt<W: Write>(&self, f: &mut Formatter<W>) -> fmt::Result {
        self.tell_rule(f)?;
        if failed(self.signal()) {
            return self.tell_trail(f);
        }
        Ok(())
    }
}

// ---- the rule

// A signal; of a REAL32 what tables and outputs make of it, with its bits.
#[derive(Clone, Copy)]
struct State(Signal);

impl fmt::Display for State {
    fn fmt<W: Write>(&self, f: &mut Formatter<W>) -> fmt::Result {
        match self.0 {
            Signal::Whole(whole) => write!(f, "{whole}"),
            Signal::Real(_) => {
                let whole = as_whole(self.0);
                let bits = number_of(self.0);
                write!(f, "{whole} as a whole number, REAL32 {bits:08X}h")
            }
            Signal::Error => write!(f, "in error"),
            Signal::Absent => write!(f, "not available"),
        }
    }
}

impl Account<'_> {
    // The output's own entry among those of an object.
    fn byte(&self, first: usize, index: u32) -> Entry
        requires { (0 < first) × (first < 65536) }
    {
        byte_entry(
            self.unit,
            first + usize::from(self.output) - 1,
            index,
            self.output,
        )
    }

    fn integer(&self, first: usize, index: u32) -> Entry
        requires { (0 < first) × (first < 65536) }
    {
        integer_entry(
            self.unit,
            first + usize::from(self.output) - 1,
            index,
            self.output,
        )
    }

    fn command(&self) -> &'static str {
        match self.rule {
            1 | 6 => "is at 0",
            3 => "is at override FV",
            7 => "follows its control",
            _ => {
                if byte_at(self.unit, FAULT_MODE + usize::from(self.output) - 1) == 0 {
                    "keeps its last command"
                } else {
                    "is at fault FV"
                }
            }
        }
    }

    fn role(&self) -> &'static str {
        match self.rule {
            1 | 2 => "enable",
            3 | 4 => "override",
            _ => "control",
        }
    }

    // The signal that decided.
    fn signal(&self) -> Signal {
        let [_, _, kind, first, second, third, fourth, ..] = *self.trail;
        of_words(
            u32::from(kind),
            u32::from_le_bytes([first, second, third, fourth]),
        )
    }

    fn tell_state<W: Write>(&self, f: &mut Formatter<W>) -> fmt::Result {
        let state = State(self.signal());
        match self.rule {
            1 => write!(f, "off, at {state}"),
            3 => write!(f, "on, at {state}"),
            _ => write!(f, "{state}"),
        }
    }

    // The pair that decided, and its response where it has one.
    fn tell_decider<W: Write>(&self, f: &mut Formatter<W>) -> fmt::Result {
        match self.rule {
            0..=2 => {
                let source = self.byte(ENABLE_SOURCE, 0x2350);
                let number = self.byte(ENABLE_NUMBER, 0x2351);
                let response = self.byte(ENABLE_RESPONSE, 0x2352);
                write!(f, "{source}, {number}, {response}")
            }
            3 | 4 => {
                let source = self.byte(OVERRIDE_SOURCE, 0x2360);
                let number = self.byte(OVERRIDE_NUMBER, 0x2361);
                let response = self.byte(OVERRIDE_RESPONSE, 0x2362);
                write!(f, "{source}, {number}, {response}")
            }
            _ => {
                let source = self.byte(CONTROL_SOURCE, 0x2340);
                let number = self.byte(CONTROL_NUMBER, 0x2341);
                write!(f, "{source}, {number}")
            }
        }
    }

    // The entries that the command comes from.
    fn tell_named<W: Write>(&self, f: &mut Formatter<W>) -> fmt::Result {
        match self.rule {
            3 => {
                let value = self.integer(OVERRIDE_FV, 0x2300);
                write!(f, "; {value}")
            }
            2 | 4 | 5 => {
                let mode = self.byte(FAULT_MODE, 0x6340);
                let value = self.integer(FAULT_FV, 0x7341);
                write!(f, "; {mode}, {value}")
            }
            _ => Ok(()),
        }
    }

    fn tell_rule<W: Write>(&self, f: &mut Formatter<W>) -> fmt::Result {
        let output = self.output;
        let rule = self.rule;
        let role = self.role();
        let command = self.command();
        let decider = Called(Pair {
            source: self.trail[0],
            number: self.trail[1],
        });
        let there = if decider.is_there() {
            ""
        } else {
            ": there is none"
        };
        write!(
            f,
            "output {output} {command}: rule {rule}, its {role} ({decider}{there}) is "
        )?;
        self.tell_state(f)?;
        let told = self.integer(COMMAND, 0x7330);
        write!(f, " [{told}; ")?;
        self.tell_decider(f)?;
        self.tell_named(f)?;
        writeln!(f, "]")
    }
}

// ---- the trail

// The pair that a block reads, and that it was so before this tick where the trail stops there.
#[derive(Clone, Copy)]
struct Reads {
    pair: Pair,
    earlier: bool,
}

impl fmt::Display for Reads {
    fn fmt<W: Write>(&self, f: &mut Formatter<W>) -> fmt::Result {
        let called = Called(self.pair);
        if self.earlier {
            return write!(f, "reads {called} as the last tick left it, in error");
        }
        write!(f, "reads {called}")
    }
}

// Input i of math n, as the word of its source; its number stands as far behind OPERAND_NUMBER.
fn operand_at(number: u8, input: u8) -> usize
    ensures { result < 65536 }
{
    OPERAND_SOURCE + MATH_ENTRIES * usize::from(number) + usize::from(input) - MATH_ENTRIES - 1
}

impl Account<'_> {
    // The step that stands there.
    fn step(&self, k: usize) -> Pair
        requires { k < 65536 }
    {
        Pair {
            source: self.trail_byte(6 + 2 * k),
            number: self.trail_byte(7 + 2 * k),
        }
    }

    fn trail_byte(&self, at: usize) -> u8 {
        let trail = self.trail;
        trail.get(at).copied().unwrap_or(0)
    }

    fn tell_logic<W: Write>(&self, f: &mut Formatter<W>, logic: u8, reads: &Reads) -> fmt::Result {
        let table = Called(reads.pair);
        let slot = LOGIC_SELECTED + usize::from(logic) - 1;
        let selected = byte_entry(self.unit, slot, 0x4010, logic);
        writeln!(f, "selected {table} [{selected}]")
    }

    fn tell_table<W: Write>(&self, f: &mut Formatter<W>, table: u8, reads: &Reads) -> fmt::Result {
        let entries = TABLE_ENTRIES * usize::from(table);
        let index = 0x3000 + 0x10 * u32::from(table);
        let source = byte_entry(self.unit, TABLE_SOURCE + entries - TABLE_ENTRIES, index, 0);
        let number = byte_entry(
            self.unit,
            TABLE_NUMBER + entries - TABLE_ENTRIES,
            index + 1,
            0,
        );
        writeln!(f, "{reads} [{source}, {number}]")
    }

    fn has_pair(&self, at: usize, pair: Pair) -> bool
        requires { at < 65536 }
    {
        byte_at(self.unit, at) == pair.source
            && byte_at(self.unit, at + OPERAND_NUMBER - OPERAND_SOURCE) == pair.number
    }

    // The first of a math block's inputs that has this pair: a later one sees no other signal.
    fn input_of(&self, math: u8, pair: Pair) -> u8 {
        for input in 1..4u8 {
            if self.has_pair(operand_at(math, input), pair) {
                return input;
            }
        }
        4
    }

    // A math block's entries begin at its index, 4600h for math 1.
    fn tell_math<W: Write>(&self, f: &mut Formatter<W>, math: u8, reads: &Reads) -> fmt::Result {
        let index = 0x4500 + 0x100 * u32::from(math);
        let input = self.input_of(math, reads.pair);
        let at = operand_at(math, input);
        let source = byte_entry(self.unit, at, index, input);
        let number = byte_entry(
            self.unit,
            at + OPERAND_NUMBER - OPERAND_SOURCE,
            index + 1,
            input,
        );
        writeln!(f, "{reads}, its input {input} [{source}, {number}]")
    }

    // The block of one step reads the next.
    fn tell_step<W: Write>(&self, f: &mut Formatter<W>, block: Pair, reads: &Reads) -> fmt::Result {
        let called = Called(block);
        write!(f, "{called} ")?;
        match block.source {
            3 => self.tell_table(f, block.number, reads),
            5 => self.tell_math(f, block.number, reads),
            _ => self.tell_logic(f, block.number, reads),
        }
    }

    fn tell_flag<W: Write>(&self, f: &mut Formatter<W>, input: u8) -> fmt::Result {
        let n = usize::from(input);
        let sample = integer_entry(self.unit, SAMPLE + n - 1, 0x7100, input);
        let start = integer_entry(self.unit, SPAN_START + n - 1, 0x7148, input);
        let end = integer_entry(self.unit, SPAN_END + n - 1, 0x7149, input);
        writeln!(f, "is flagged [{sample}; {start}, {end}]")
    }

    fn tell_division<W: Write>(&self, f: &mut Formatter<W>, math: u8) -> fmt::Result {
        let at = MATH_OPERATOR + MATH_ENTRIES * usize::from(math) - MATH_ENTRIES;
        let index = 0x4550 + 0x100 * u32::from(math);
        let first = byte_entry(self.unit, at, index, 1);
        let second = byte_entry(self.unit, at + 1, index, 2);
        let third = byte_entry(self.unit, at + 2, index, 3);
        writeln!(f, "divides by zero [{first}, {second}, {third}]")
    }

    // The last step is where the error began; one that the last tick left was told with its reader.
    fn tell_end<W: Write>(&self, f: &mut Formatter<W>, block: Pair, end: End) -> fmt::Result {
        let called = Called(block);
        match end {
            End::Flagged => {
                write!(f, "{called} ")?;
                self.tell_flag(f, block.number)
            }
            End::Divided => {
                write!(f, "{called} ")?;
                self.tell_division(f, block.number)
            }
            End::Earlier => Ok(()),
        }
    }

    // How a trail of so many steps ends.
    fn end(&self, count: usize) -> End
        requires { count < 256 }
    {
        match self.trail_byte(8 + 2 * count) {
            1 => End::Flagged,
            3 => End::Earlier,
            _ => End::Divided,
        }
    }

    fn tell_trail<W: Write>(&self, f: &mut Formatter<W>) -> fmt::Result {
        let count = usize::from(self.trail[7]);
        let end = self.end(count);
        for k in 1..count {
            let reads = Reads {
                pair: self.step(k + 1),
                earlier: matches!(end, End::Earlier) && k + 1 == count,
            };
            self.tell_step(f, self.step(k), &reads)?;
        }
        self.tell_end(f, self.step(count), end)
    }
}
