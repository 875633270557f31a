// The steps of a schedule.
ghost use Rattle.std.specs.Prelude.{◌≡◌};
ghost use Rattle.bench.specs.Schedules.{words_left, step_from, SpelledOut};

use super::{Schedule, Step};
use std::collections::VecDeque;

impl Schedule {
    // Any words make a schedule.
    pub fn new(words: Vec<u32>) -> Schedule
        ensures words { words_left result ≡ words.items }
    {
        Schedule {
            words: VecDeque::from_vec(words),
        }
    }

    #[tactic(auto, using(crate::proofs::Spelled::spelled_out))]
    pub fn next_step(&mut self) -> Step
        ensures step { (result, words_left self.new) ≡ step_from (words_left self.old) }
        ensures law { SpelledOut }
    {
        let Some(word) = self.words.front_mut() else {
            return Step::EMPTY;
        };
        let gap = *word % (1 << 14);
        if gap > 0 {
            // The gap is the low bits, so a word with one empty step less is one less.
            *word -= 1;
            return Step::EMPTY;
        }
        let step = Step::from(*word);
        self.words.pop_front();
        step
    }
}
