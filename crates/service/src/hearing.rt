// The session's lines, each answered as the session program answers it; what is answered is not shown.
use dictionary::slots::Unit;
use printer::answering::answer;
use std::io::Read;
use terminal::line::Line;

fn answer_line(unit: &mut Unit, line: &Line) {
    let mut out = [0u8; 64];
    answer(unit, line.text(), &mut out);
}

fn take_byte(unit: &mut Unit, line: &mut Line, byte: u8) {
    if byte != b'\n' {
        line.join(byte);
        return;
    }
    answer_line(unit, line);
    line.clear();
}

// The last line may lack its line end. What cannot be read is the end too. A proved loop has to end: no session has so many pieces.
pub fn hear_all<R: Read>(reader: &mut R, unit: &mut Unit) {
    let mut line = Line::new();
    for _ in 0..u64::MAX {
        let mut piece = [0u8; 256];
        let n = reader.read(&mut piece).unwrap_or(0);
        if n == 0 {
            break;
        }
        for byte in &piece[..n] {
            take_byte(unit, &mut line, *byte);
        }
    }
    if !line.is_empty() {
        answer_line(unit, &line);
    }
}
