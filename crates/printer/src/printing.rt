// The answers of one character, into a lent buffer that has room for every answer.
ghost use Rattle.std.specs.Prelude.{◌≤◌, length};
ghost use Rattle.printer.specs.Printing.{Printed, silent_line, unknown_line};

use octets::putting::put;

// The character and the line end.
fn show_text(text: &[u8], out: &mut [u8; 64]) -> usize
    requires { length text.now ≤ 64 }
    ensures { Printed text.now out.old out.new result }
{
    put(out, 0, text);
    text.len()
}

pub fn show_silent(out: &mut [u8; 64]) -> usize
    ensures { Printed silent_line out.old out.new result }
{
    show_text(b"-\n", out)
}

pub fn show_unknown(out: &mut [u8; 64]) -> usize
    ensures { Printed unknown_line out.old out.new result }
{
    show_text(b"?\n", out)
}
