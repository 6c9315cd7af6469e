// Bytes that are put together piece by piece; what finds no room is left out.
ghost use Rattle.std.specs.Prelude.{◌≤◌};

use std::fmt;

// Room for an image and for one byte more, which tells that a file is too long; room enough for a path and a list too.
pub const ROOM: usize = 5208;

#[derive(Clone, Copy)]
pub struct Buffer {
    room: [u8; ROOM],
    end: usize,
    ghost within: { end ≤ 5208 },
}

impl Buffer {
    pub fn new() -> Buffer {
        Buffer {
            room: [0; ROOM],
            end: 0,
        }
    }

    pub fn is_full(&self) -> bool {
        self.end == ROOM
    }

    pub fn bytes(&self) -> &[u8] {
        &self.room[..self.end]
    }

    pub fn put(&mut self, piece: &[u8]) {
        let count = piece.len().min(ROOM - self.end);
        let next = self.end + count;
        self.room[self.end..next].copy_from_slice(&piece[..count]);
        self.end = next;
    }
}

impl fmt::Write for Buffer {
    fn write_str(&mut self, text: &str) -> fmt::Result {
        self.put(text.as_bytes());
        Ok(())
    }
}
