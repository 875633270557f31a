// The state of a pair by the states of its sides.
ghost use Rattle.std.specs.Prelude.{◌≡◌};
ghost use Rattle.disks.specs.Values.{state_values};
ghost use Rattle.pair.specs.Sides.{state_of};

use crate::pair::Pair;
use disks::cause::Cause;
use disks::reader::Reader;
use disks::side::Side;
use disks::state::State;

impl<A: Reader, B: Reader> Pair<A, B> {
    // The state that the pair would have if it were joined, or not.
    pub(super) fn state_if(&self, joined: bool) -> State
        ensures { state_values result ≡ state_of joined (A.view self.now.side0).state (B.view self.now.side1).state }
    {
        // A dark side comes before the other side's death, and side 0 before side 1.
        // Side 1's darkness takes two rows, since with `_` or `|` in front of its cause the proof did not close.
        match (self.side0.state(), self.side1.state()) {
            (State::Dark(cause), _) => State::Dark(cause.under(Side::Zero.number())),
            (State::On, State::Dark(cause)) => State::Dark(cause.under(Side::One.number())),
            (State::Dead(_), State::Dark(cause)) => State::Dark(cause.under(Side::One.number())),
            (State::Dead(_), State::Dead(cause)) => State::Dead(cause.under(Side::One.number())),
            _ if joined => State::On,
            _ => State::Dark(Cause::unjoined()),
        }
    }
}
