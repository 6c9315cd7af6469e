// A REAL32 in decimal.
use std::fmt;

// As few digits as read back as the same REAL32: from 0.0001 to below 10,000,000 as it is, else with an exponent.
#[derive(Clone, Copy)]
pub struct Real(pub f32);

impl fmt::Display for Real {
    fn fmt<W: fmt::Write>(&self, f: &mut fmt::Formatter<W>) -> fmt::Result {
        let real = self.0;
        let size = real.abs();
        if size == 0.0 || (0.0001 <= size && size < 10_000_000.0) {
            return write!(f, "{real}");
        }
        write!(f, "{real:e}")
    }
}
