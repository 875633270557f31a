// Why a disk is dark or dead.
ghost use Rattle.std.specs.Prelude.{◌≡◌, Some};
ghost use Rattle.disks.specs.Values.{call_number, call_block, cause_values};
ghost use Rattle.disks.specs.Trails.{cause_at, cause_under, unjoined_cause};
ghost use Rattle.disks.specs.Text.{cause_text};

use crate::trail::Trail;
use std::fmt;

// The calls of a cause, by their numbers.
pub const NOT_JOINED: u8 = 0;

pub const READ: u8 = 1;

pub const WRITE: u8 = 2;

pub const BARRIER: u8 = 3;

pub const RESTART: u8 = 4;

// A call of a disk, with its block where it has one.
#[derive(Clone, Copy, Debug, PartialEq, Eq)]
pub enum Call {
    Read(u16),
    Write(u16),
    Barrier,
    Restart,
}

impl Call {
    // The number by which a cause and its text name the call, and so a method and no `From`.
    pub fn number(self) -> u8
        ensures { result ≡ call_number (Some self) }
    {
        match self {
            Call::Read(_) => READ,
            Call::Write(_) => WRITE,
            Call::Barrier => BARRIER,
            Call::Restart => RESTART,
        }
    }

    // The block that goes with it; 0 for a barrier and a restart.
    pub fn block(self) -> u16
        ensures { result ≡ call_block (Some self) }
    {
        match self {
            Call::Read(block) | Call::Write(block) => block,
            Call::Barrier | Call::Restart => 0,
        }
    }
}

// Plain numbers, so that a caller can print them or send them on, and so that any numbers make one.
#[derive(Clone, Copy, Debug, PartialEq, Eq)]
pub struct Cause {
    // The number of the call that met the cut or the death; `NOT_JOINED` if none did, since a pair is not joined.
    pub call: u8,
    // The block of that call; 0 where it has none.
    pub block: u16,
    // The way from the top pair down to the disk that met it.
    pub trail: Trail,
}

impl Cause {
    // The call itself met the cut or the death, so the trail is empty.
    pub fn at(call: u8, block: u16) -> Cause
        ensures { cause_values result ≡ cause_at call block }
    {
        Cause {
            call,
            block,
            trail: Trail::EMPTY,
        }
    }

    // The cause of a pair that is not joined: no call met a cut.
    pub fn unjoined() -> Cause
        ensures { cause_values result ≡ unjoined_cause }
    {
        Cause::at(NOT_JOINED, 0)
    }

    // The cause as the pair gives it whose side the disk is.
    pub fn under(self, side: u8) -> Cause
        ensures { cause_values result ≡ cause_under side (cause_values self) }
    {
        Cause {
            call: self.call,
            block: self.block,
            trail: self.trail.under(side),
        }
    }
}

// As `Cause::at`, by the call.
impl From<Call> for Cause {
    ghost from_gives = { λ call cause. cause_values cause ≡ cause_at (call_number (Some call)) (call_block (Some call)) };

    fn from(call: Call) -> Cause {
        Cause::at(call.number(), call.block())
    }
}

impl fmt::Display for Cause {
    ghost output = { λ c. Some (cause_text (cause_values c)) };

    fn fmt<W: fmt::Write>(&self, f: &mut fmt::Formatter<W>) -> fmt::Result {
        write!(f, "{} {} {}", self.call, self.block, self.trail)
    }
}
