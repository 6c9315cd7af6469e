// The two logic blocks in a tick. Block x has row k = x - 1; A, B, C have t = 0, 1, 2.
ghost use Rattle.std.specs.Prelude.{◌≡◌, ◌+◌, ◌%◌, ◌<◌, get_or};
ghost use Rattle.numbers.specs.Choice.{first};
ghost use Rattle.logic.specs.Gathering.{counts};
ghost use Rattle.logic.specs.Logics.{judged_at, condition_at, holds_of, chosen, logic_turn};
ghost use Rattle.unit.specs.Each.{each};

use crate::digits::{digits_of, in_same_digits};
use crate::gathering::{does_count, gather, settles};
use crate::{Verdict, compare, condition};
use dictionary::slots::{
    CONDITION, LOGIC_ENABLE, LOGIC_ENTRIES, LOGIC_OPERATOR, LOGIC_SELECTED, LOGIC_TABLE,
    LOGIC_VALUE, Unit,
};
use numbers::signed::pattern;
use signals::reading::{absent, as_real, as_whole};
use signals::signal::Signal;
use unit::laying::lay;
use unit::pairs::{Pair, pair_at};
use unit::rows::Row;
use unit::sources::look_up;
use unit::words::byte_at;

// A condition by its slot: source, number, source, number, comparison.
#[derive(Clone, Copy)]
struct Condition<'a> {
    unit: &'a Unit,
    at: usize,
    ghost low: { at < 65000 },
}

impl<'a> Condition<'a> {
    fn left(self) -> Pair
        ensures { result ≡ record { source = get_or self.entry.unit.now self.entry.at 0 % 0x100; number = get_or self.entry.unit.now (self.entry.at + 1) 0 % 0x100 } }
    {
        pair_at(self.unit, self.at, self.at + 1)
    }

    fn right(self) -> Pair
        ensures { result ≡ record { source = get_or self.entry.unit.now (self.entry.at + 2) 0 % 0x100; number = get_or self.entry.unit.now (self.entry.at + 2 + 1) 0 % 0x100 } }
    {
        pair_at(self.unit, self.at + 2, self.at + 2 + 1)
    }

    fn comparison(self) -> u8
        ensures { result ≡ get_or self.entry.unit.now (self.entry.at + 4) 0 % 0x100 }
    {
        byte_at(self.unit, self.at + 4)
    }
}

fn told(holds: bool) -> Verdict
    ensures { result ≡ first holds Verdict.True Verdict.False }
{
    if holds {
        return Verdict::True;
    }
    Verdict::False
}

// Where the first argument is a whole number: only where the second is one too have the two their digits looked up.
fn against_whole(asked: Condition<'_>, v: i16) -> Verdict
    ensures { result ≡ judged_at asked.entry.unit.now asked.entry.at (Signal.Whole v) }
{
    let second = asked.right();
    let right = look_up(asked.unit, second);
    match right {
        Signal::Whole(w) => {
            let d = digits_of(asked.unit, asked.left());
            let e = digits_of(asked.unit, second);
            told(in_same_digits(asked.comparison(), v, d, w, e))
        }
        Signal::Real(y) => told(compare(asked.comparison(), v as f32, y)),
        Signal::Error => Verdict::Error,
        Signal::Absent => Verdict::NotAvailable,
    }
}

// Where the first argument is missing the second is not looked up.
fn judge_at(asked: Condition<'_>) -> Verdict
    ensures { result ≡ condition_at asked.entry.unit.now asked.entry.at }
{
    let left = look_up(asked.unit, asked.left());
    if absent(left) {
        return Verdict::NotAvailable;
    }
    let Signal::Whole(v) = left else {
        let right = as_real(look_up(asked.unit, asked.right()));
        return condition(left, right, asked.comparison());
    };
    against_whole(asked, v)
}

// Asked in three places, so that the compiler makes one function of it; the unit and the slot go in registers, and a bool comes back in one.
fn counts_at(unit: &Unit, operator: u8, at: usize) -> bool
    requires { at < 65000 }
    ensures { result ≡ counts operator (condition_at unit.now at) }
{
    does_count(operator, judge_at(Condition { unit, at }))
}

// Whether the operator of A, B or C holds: under 0 no condition is judged, else none that cannot matter any more.
fn holds_at(logic: Row<'_, 2>, t: usize) -> bool
    requires { t < 3 }
    ensures { result ≡ holds_of logic.entry.unit.now (logic.entry.k + 1) (t + 1) }
{
    let unit = logic.unit;
    let row = (LOGIC_ENTRIES as u32 * logic.k as u32) as usize;
    let operator = byte_at(unit, LOGIC_OPERATOR + row + t);
    if operator == 0 {
        return true;
    }
    let at = CONDITION + row + 15 * t;
    let one = gather(operator, 0, false, counts_at(unit, operator, at));
    if settles(operator, one) {
        return one;
    }
    let two = gather(operator, 1, one, counts_at(unit, operator, at + 5));
    if settles(operator, two) {
        return two;
    }
    gather(operator, 2, two, counts_at(unit, operator, at + 10))
}

// The first that holds is selected, so what comes after it is not looked at.
fn selected(logic: Row<'_, 2>) -> u8
    ensures { result ≡ chosen logic.entry.unit.now (logic.entry.k + 1) }
{
    if logic.switched(LOGIC_ENABLE) {
        for t in 0..3_u32 {
            if holds_at(logic, t as usize) {
                let row = (LOGIC_ENTRIES as u32 * logic.k as u32) as usize;
                return byte_at(logic.unit, LOGIC_TABLE + row + t as usize);
            }
        }
    }
    0
}

// The output is the selected table's signal, which source 3 names.
pub fn logics(unit: &mut Unit)
    ensures { unit.new ≡ each 2 logic_turn unit.old }
{
    for k in 0..2 {
        let number = selected(Row { unit, k });
        let signal = look_up(unit, Pair { source: 3, number });
        unit[LOGIC_SELECTED + k] = number as u32;
        unit[LOGIC_VALUE + k] = pattern(as_whole(signal));
        lay(unit, 14 + k, signal);
    }
}
