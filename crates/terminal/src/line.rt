// A line of the input as it comes in, byte by byte.
ghost use Rattle.std.specs.Prelude.{◌≡◌, ◌+◌, ◌<◌, ◌≤◌, ◌↔◌, IsTrue, take, replicate, slice_set};

// One byte more than a good line may have, so that a line that is longer can be told.
pub const LINE: usize = 65;

// So many bytes are held, at the front of the room; a line writes over the one before.
#[derive(Clone, Copy)]
pub struct Line {
    pub bytes: [u8; LINE],
    pub held: usize,
}

impl Line {
    pub fn new() -> Line
        ensures { result ≡ record { bytes = replicate 65 0; held = 0 } }
    {
        Line {
            bytes: [0; LINE],
            held: 0,
        }
    }

    pub fn is_empty(&self) -> bool
        ensures { IsTrue result ↔ (self.now.held ≡ 0) }
    {
        self.held == 0
    }

    // The bytes that are held.
    pub fn text(&self) -> &[u8]
        ensures { result.now ≡ take self.now.held self.now.bytes }
    {
        self.bytes.get(..self.held).unwrap_or(&self.bytes)
    }

    // A byte joins the line; what is past the line's room is not kept.
    pub fn join(&mut self, byte: u8)
        ensures kept { self.old.held < 65 → self.new ≡ record { bytes = slice_set self.old.bytes self.old.held byte; held = self.old.held + 1 } }
        ensures past { 65 ≤ self.old.held → self.new ≡ self.old }
    {
        if self.held < LINE {
            self.bytes[self.held] = byte;
            self.held += 1;
        }
    }

    // The next line begins.
    pub fn clear(&mut self)
        ensures { self.new ≡ record { bytes = self.old.bytes; held = 0 } }
    {
        self.held = 0;
    }
}
