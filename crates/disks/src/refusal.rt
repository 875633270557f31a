// The answers of a reader or a disk that are not done.
ghost use Rattle.std.specs.Prelude.{◌≡◌, Some};
ghost use Rattle.disks.specs.Values.{refusal_values, numbered, meaning_of, TellsApart};
ghost use Rattle.disks.specs.Trails.{refusal_under};

use crate::cause::Cause;
use std::fmt;

#[derive(Clone, Copy, Debug, PartialEq, Eq)]
pub enum Refusal {
    // 1: the block is at or past the size.
    PastEnd,
    // 2: the disk is dark.
    Dark(Cause),
    // 3: the disk is dead, and what it held is lost.
    Lost(Cause),
}

impl Refusal {
    // A part of the answer, with a law of its own, and so a method and no `From`.
    pub fn number(&self) -> u8
        ensures value { result ≡ (numbered (refusal_values self.now)).0 }
        ensures apart { TellsApart }
    {
        match self {
            Refusal::PastEnd => 1,
            Refusal::Dark(_) => 2,
            Refusal::Lost(_) => 3,
        }
    }

    // Its meaning in words.
    pub fn meaning(&self) -> &'static str
        ensures { result.now ≡ meaning_of (refusal_values self.now) }
    {
        match self {
            Refusal::PastEnd => "block at or past the size",
            Refusal::Dark(_) => "disk dark",
            Refusal::Lost(_) => "lost: disk dead",
        }
    }

    // The refusal as the pair gives it whose side the disk is.
    pub fn under(self, side: u8) -> Refusal
        ensures { refusal_values result ≡ refusal_under side (refusal_values self) }
    {
        match self {
            Refusal::PastEnd => Refusal::PastEnd,
            Refusal::Dark(cause) => Refusal::Dark(cause.under(side)),
            Refusal::Lost(cause) => Refusal::Lost(cause.under(side)),
        }
    }
}

impl fmt::Display for Refusal {
    ghost output = { λ e. Some (meaning_of (refusal_values e)) };

    fn fmt<W: fmt::Write>(&self, f: &mut fmt::Formatter<W>) -> fmt::Result {
        f.write_str(self.meaning())
    }
}
