// The answers of look that are not done.
ghost use Rattle.std.specs.Prelude.{◌≡◌, Some};
ghost use Rattle.store.specs.LookValues.{look_refusal_values, look_numbered, look_meaning, LookTellsApart};
ghost use Rattle.store.specs.declared.look_refusal.LookRefusal.TheVariants.{Disk};

use disks::refusal::Refusal;
use std::fmt;

#[derive(Clone, Copy, Debug, PartialEq, Eq)]
pub enum LookRefusal {
    // 1, 2 or 3: what the reader answered.
    Disk(Refusal),
    // 6: the size is below 34 or above 4,129.
    UnfitSize,
    // 7: the header is not well formed, or its N is not the size minus 33.
    NoHeader,
    // 12: the address is at or past N.
    PastPlan,
}

impl LookRefusal {
    // A part of the answer, with a law of its own, and so a method and no `From`.
    pub fn number(&self) -> u8
        ensures value { result ≡ (look_numbered (look_refusal_values self.now)).0 }
        ensures apart { LookTellsApart }
    {
        match self {
            LookRefusal::Disk(e) => e.number(),
            LookRefusal::UnfitSize => 6,
            LookRefusal::NoHeader => 7,
            LookRefusal::PastPlan => 12,
        }
    }

    // Its meaning in words.
    pub fn meaning(&self) -> &'static str
        ensures { result.now ≡ look_meaning (look_refusal_values self.now) }
    {
        match self {
            LookRefusal::Disk(e) => e.meaning(),
            LookRefusal::UnfitSize => "size below 34 or above 4,129 blocks",
            LookRefusal::NoHeader => "header not well formed or N not size - 33",
            LookRefusal::PastPlan => "address at or past N",
        }
    }
}

impl fmt::Display for LookRefusal {
    ghost output = { λ e. Some (look_meaning (look_refusal_values e)) };

    fn fmt<W: fmt::Write>(&self, f: &mut fmt::Formatter<W>) -> fmt::Result {
        f.write_str(self.meaning())
    }
}

impl From<Refusal> for LookRefusal {
    ghost from_gives = { λ e r. r ≡ Disk e };

    fn from(e: Refusal) -> LookRefusal {
        LookRefusal::Disk(e)
    }
}
