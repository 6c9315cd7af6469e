// What a frame is answered.
ghost use Rattle.std.specs.Prelude.{◌≡◌};
ghost use Rattle.sdo.specs.Answers.{of_missing, of_fault};
ghost use Rattle.sdo.specs.Frames.{code};

use dictionary::types::Missing;
use entries::types::Fault;

// Why a frame is aborted, in the order of the rows.
#[derive(Clone, Copy)]
pub enum Abort {
    Command,
    NoIndex,
    NoSub,
    ReadOnly,
    TooLong,
    TooShort,
    // 1003h:0 takes no value but 0
    NotClear,
    NotFinite,
    Above,
    Below,
    ChainUp,
    ChainDown,
}

impl Abort {
    // The number that is sent.
    #[tactic(auto, unfolding(crate::specs::Frames::code))]
    pub fn code(self) -> u32
        ensures { result ≡ code self }
    {
        match self {
            Abort::Command => 0x0504_0001,
            Abort::NoIndex => 0x0602_0000,
            Abort::NoSub => 0x0609_0011,
            Abort::ReadOnly => 0x0601_0002,
            Abort::TooLong => 0x0607_0012,
            Abort::TooShort => 0x0607_0013,
            Abort::NotClear => 0x0609_0030,
            Abort::NotFinite => 0x0609_0030,
            Abort::Above => 0x0609_0031,
            Abort::Below => 0x0609_0032,
            Abort::ChainUp => 0x0609_0031,
            Abort::ChainDown => 0x0609_0032,
        }
    }
}

impl From<Missing> for Abort {
    ghost from_gives = { λ missing abort. abort ≡ of_missing missing };

    fn from(missing: Missing) -> Abort {
        match missing {
            Missing::Index => Abort::NoIndex,
            Missing::Sub => Abort::NoSub,
        }
    }
}

impl From<Fault> for Abort {
    ghost from_gives = { λ fault abort. abort ≡ of_fault fault };

    fn from(fault: Fault) -> Abort {
        match fault {
            Fault::NotFinite => Abort::NotFinite,
            Fault::Above => Abort::Above,
            Fault::Below => Abort::Below,
            Fault::ChainUp => Abort::ChainUp,
            Fault::ChainDown => Abort::ChainDown,
        }
    }
}

// What a frame that is not aborted comes to.
#[derive(Clone, Copy)]
pub enum Done {
    // a value of so many bytes
    Value(u32, u8),
    // a word for a slot
    Written(usize, u32),
}

// A command byte: a read, or a write with the length that it tells, if it tells one.
#[derive(Clone, Copy)]
pub enum Command {
    Read,
    Write(Option<u8>),
}
