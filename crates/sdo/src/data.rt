// The parts of a frame of eight bytes.
ghost use Rattle.std.specs.Prelude.{◌≡◌, ◌≤◌};
ghost use Rattle.sdo.specs.Frames.{index_in, sub_in, data_in, command_of};

use super::types::{Abort, Command};
use octets::little::{four, two};

pub fn index_in(frame: &[u8; 8]) -> u16
    ensures { result ≡ index_in frame.now }
{
    two(frame[1], frame[2])
}

pub fn sub_in(frame: &[u8; 8]) -> u8
    ensures { result ≡ sub_in frame.now }
{
    frame[3]
}

// The first data bytes, as many as a type has.
pub fn data_in(frame: &[u8; 8], size: u8) -> u32
    requires { (1 ≤ size) × (size ≤ 4) × (size ≡ 3 → ⊥) }
    ensures { result ≡ data_in size frame.now }
{
    match size {
        1 => four(frame[4], 0, 0, 0),
        2 => four(frame[4], frame[5], 0, 0),
        _ => four(frame[4], frame[5], frame[6], frame[7]),
    }
}

#[tactic(auto, using(numbers::proofs::Tests::tests), unfolding(crate::specs::Frames::command_of, numbers::specs::Choice::first))]
pub fn command(byte: u8) -> Result<Command, Abort>
    ensures { result ≡ command_of byte }
{
    match byte {
        0x40 => Ok(Command::Read),
        0x23 => Ok(Command::Write(Some(4))),
        0x27 => Ok(Command::Write(Some(3))),
        0x2B => Ok(Command::Write(Some(2))),
        0x2F => Ok(Command::Write(Some(1))),
        0x22 => Ok(Command::Write(None)),
        _ => Err(Abort::Command),
    }
}
