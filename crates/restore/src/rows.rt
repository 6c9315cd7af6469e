// A text in rows, one to a line: a key, a space, then words.

// Whether a letter of a row's key stands for this digit. As in the paper's names x is 1 or 2, y 6 to 9 and z any; so is ?.
fn stands_for(letter: u8, digit: u8) -> bool {
    match letter {
        b'?' | b'z' => true,
        b'x' => digit < 3,
        b'y' => digit > 5,
        b'0'..=b'9' => letter - b'0' == digit,
        _ => false,
    }
}

fn fits(row: &[u8], key: &[u8]) -> bool {
    key.len() <= row.len()
        && row
            .iter()
            .zip(key)
            .all(|(letter, digit)| stands_for(*letter, *digit))
}

// The words of the first row that has this key; none where no row has.
pub fn words_of<'a>(text: &'a [u8], key: &[u8]) -> &'a [u8] {
    for row in text.split(|byte| *byte == b'\n') {
        if fits(row, key) {
            return row.get(key.len() + 1..).unwrap_or(b"");
        }
    }
    b""
}
