// When a bench disk fails. Each call that meets a living disk takes one step of its schedule.
ghost use Rattle.std.specs.Prelude.{◌≡◌};
ghost use Rattle.bench.specs.Schedules.{step_of};

use std::collections::VecDeque;

#[derive(Clone, Copy, Debug, PartialEq, Eq)]
pub enum Verb {
    // 0: the call goes on.
    Go,
    // 1: the power is cut before the call's effect.
    CutBefore,
    // 2: the power is cut after it.
    CutAfter,
    // 3: the disk dies before it.
    Kill,
}

#[derive(Clone, Copy, Debug, PartialEq, Eq)]
pub struct Step {
    pub verb: Verb,
    pub pick: u16,
}

impl Step {
    // A step at which nothing happens.
    pub const EMPTY: Step = Step {
        verb: Verb::Go,
        pick: 0,
    };
}

// The verb and the pick of a word, whatever its gap.
impl From<u32> for Step {
    ghost from_gives = { λ word step. step ≡ step_of word };

    fn from(word: u32) -> Step {
        Step {
            verb: match word >> 30 {
                0 => Verb::Go,
                1 => Verb::CutBefore,
                2 => Verb::CutAfter,
                _ => Verb::Kill,
            },
            // Its 16 bits.
            pick: ((word >> 14) % (1 << 16)) as u16,
        }
    }
}

// Words of 32 bits, most significant bit first: the verb in 2, the pick in 16, the gap in 14.
// A word is as many empty steps as its gap says, then one with its verb and pick. After the last word every step is empty.
#[derive(Drop)]
pub struct Schedule {
    // What is left of them: the gap of the first is what is left of it.
    words: VecDeque<u32>,
}

pub mod steps;
#[cfg(test)]
mod tests;
