// The six lookup tables in a tick. Table z has row k = z - 1.
ghost use Rattle.std.specs.Prelude.{◌≡◌, ◌+◌, ◌<◌, ◌≤◌, length, take, drop};
ghost use Rattle.table.specs.Table.{looked_up};
ghost use Rattle.table.specs.Tables.{table_signal, table_turn};
ghost use Rattle.unit.specs.Each.{each};

use dictionary::slots::{
    TABLE_ENTRIES, TABLE_NUMBER, TABLE_RESPONSE, TABLE_SOURCE, TABLE_VALUE, TABLE_X, TABLE_Y, Unit,
};
use numbers::signed::pattern;
use signals::reading::as_whole;
use signals::signal::Signal;
use unit::laying::lay;
use unit::pairs::pair_at;
use unit::rows::Row;
use unit::sources::look_up;

// Eleven words from each of three slots.
fn curve(unit: &[u32], signal: Signal, response: usize, x: usize, y: usize) -> Signal
    requires { (response + 11 ≤ length unit.now) × (x + 11 ≤ length unit.now) × (y + 11 ≤ length unit.now) }
    ensures { result ≡ looked_up (take 11 (drop response unit.now)) (take 11 (drop x unit.now)) (take 11 (drop y unit.now)) signal }
{
    let response_end = response + 11;
    let x_end = x + 11;
    let y_end = y + 11;
    crate::look_up(
        signal,
        &unit[response..response_end],
        &unit[x..x_end],
        &unit[y..y_end],
    )
}

fn signal_of(table: Row<'_, 6>) -> Signal
    ensures { result ≡ table_signal table.entry.unit.now (table.entry.k + 1) }
{
    let unit = table.unit;
    let row = (TABLE_ENTRIES as u32 * table.k as u32) as usize;
    let signal = look_up(unit, pair_at(unit, TABLE_SOURCE + row, TABLE_NUMBER + row));
    curve(
        unit,
        signal,
        TABLE_RESPONSE + row,
        TABLE_X + row,
        TABLE_Y + row,
    )
}

pub fn tables(unit: &mut Unit)
    ensures { unit.new ≡ each 6 table_turn unit.old }
{
    for k in 0..6_u32 {
        let signal = signal_of(Row {
            unit,
            k: k as usize,
        });
        unit[TABLE_VALUE + k as usize] = pattern(as_whole(signal));
        lay(unit, 8 + k as usize, signal);
    }
}
