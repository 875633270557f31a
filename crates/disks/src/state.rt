// The state of a reader.
ghost use Rattle.std.specs.Prelude.{◌≡◌};
ghost use Rattle.disks.specs.Values.{state_values, answer_values, answer_by};

use crate::cause::Cause;
use crate::refusal::Refusal;

#[derive(Clone, Copy, Debug, PartialEq, Eq)]
pub enum State {
    On,
    // No call is done but a restart.
    Dark(Cause),
    // For good.
    Dead(Cause),
}

impl State {
    // The answer of a call that leaves its disk in this state.
    pub fn answer(self) -> Result<(), Refusal>
        ensures { answer_values result ≡ answer_by tt (state_values self) }
    {
        match self {
            State::On => Ok(()),
            State::Dark(cause) => Err(Refusal::Dark(cause)),
            State::Dead(cause) => Err(Refusal::Lost(cause)),
        }
    }
}
