// A call of a disk, and the line that asks for it.
ghost use Rattle.std.specs.Prelude.{◌≡◌};
ghost use Rattle.drive.specs.Calls.{call_of};

use script::number::parse_number;
use script::piece::{is_word, split_first};

#[derive(Clone, Copy, Debug, PartialEq, Eq)]
pub enum DiskCall {
    Read(u16),
    // Fills the block with the byte.
    Write(u16, u8),
    Barrier,
    Restart,
}

pub const SPACE: u8 = b' ';

// The call that the line asks for; none if it is of no such form.
#[tactic(auto, using(crate::proofs::Asking::other_call))]
pub fn parse_call(line: &[u8]) -> Option<DiskCall>
    ensures { result ≡ call_of line.now }
{
    let (name, after) = split_first(line, SPACE);
    // By `is_word` and not by byte strings in the patterns: of those the proof did not close. A word too many makes no number of the last, since a space is no digit.
    match after {
        None if is_word(name, b"barrier") => Some(DiskCall::Barrier),
        None if is_word(name, b"restart") => Some(DiskCall::Restart),
        Some(block) if is_word(name, b"read") => {
            let number = parse_number(block, u16::MAX)?;
            Some(DiskCall::Read(number))
        }
        Some(words) if is_word(name, b"write") => {
            let (block, byte) = split_first(words, SPACE);
            let number = parse_number(block, u16::MAX)?;
            let fill = parse_number(byte?, 255)?;
            // At most 255.
            Some(DiskCall::Write(number, fill as u8))
        }
        _ => None,
    }
}
