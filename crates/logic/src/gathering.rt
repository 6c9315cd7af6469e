// What a table's operator makes of its three conditions, gathered one after the other, so that whoever holds the settings judges none that
// cannot matter.
ghost use Rattle.std.specs.Prelude.{◌≡◌};
ghost use Rattle.logic.specs.Gathering.{both, counts, gathered, settled};

use crate::Verdict;

// Whether condition c + 1 has to hold beside what was gathered so far, or may hold instead of it.
fn is_both(operator: u8, c: usize) -> bool
    ensures { result ≡ both operator c }
{
    match operator {
        1 => true,
        2 => false,
        3 => c < 2,
        _ => c == 2,
    }
}

// What is not available counts where all three have to hold.
pub fn does_count(operator: u8, v: Verdict) -> bool
    ensures { result ≡ counts operator v }
{
    match v {
        Verdict::False => false,
        Verdict::True => true,
        Verdict::Error => false,
        Verdict::NotAvailable => operator == 1,
    }
}

// What operators 1 to 4 have gathered with condition c + 1, one after the other.
pub fn gather(operator: u8, c: usize, so: bool, holds: bool) -> bool
    ensures { result ≡ gathered operator c so holds }
{
    if c == 0 {
        return holds;
    }
    if is_both(operator, c) {
        return so & holds;
    }
    so | holds
}

// Whether no further condition can matter.
pub fn settles(operator: u8, so: bool) -> bool
    ensures { result ≡ settled operator so }
{
    match operator {
        1 => !so,
        2 => so,
        _ => false,
    }
}
