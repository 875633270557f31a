// The answers of a pair's making that are not done.
ghost use Rattle.std.specs.Prelude.{◌≡◌};
ghost use Rattle.pair.specs.Making.{pair_numbered, pair_meaning, PairTellsApart};

use std::fmt;

#[derive(Clone, Copy, Debug, PartialEq, Eq)]
pub enum PairRefusal {
    // 4: the sides have unequal sizes.
    UnequalSizes,
    // 5: a side has height 8 or more.
    TooHigh,
}

// What a refused making hands back: both sides as they came.
#[derive(Drop)]
pub struct Unpaired<A, B> {
    pub refusal: PairRefusal,
    pub side0: A,
    pub side1: B,
}

impl PairRefusal {
    // A part of the answer, with a law of its own, and so a method and no `From`.
    pub fn number(&self) -> u8
        ensures value { result ≡ (pair_numbered self.now).0 }
        ensures apart { PairTellsApart }
    {
        match self {
            PairRefusal::UnequalSizes => 4,
            PairRefusal::TooHigh => 5,
        }
    }

    // Its meaning in words.
    pub fn meaning(&self) -> &'static str
        ensures { result.now ≡ pair_meaning self.now }
    {
        match self {
            PairRefusal::UnequalSizes => "pair of unequal sizes",
            PairRefusal::TooHigh => "a side of height 8 or more",
        }
    }
}

impl fmt::Display for PairRefusal {
    ghost use Rattle.std.specs.Prelude.{Some};
    ghost use Rattle.pair.specs.Making.{pair_meaning};

    ghost output = { λ x. Some (pair_meaning x) };

    fn fmt<W: fmt::Write>(&self, f: &mut fmt::Formatter<W>) -> fmt::Result {
        f.write_str(self.meaning())
    }
}
