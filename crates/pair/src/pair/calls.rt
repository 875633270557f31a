// What the sides do in a read, a write or a barrier of their pair.
ghost use Rattle.std.specs.Prelude.{◌≡◌};
ghost use Rattle.disks.specs.Values.{answer_values};
ghost use Rattle.disks.specs.Meaning.{shown, Untouched};
ghost use Rattle.pair.specs.Calls.{is_dark, CallOf, Part, HandedOn, ReadsFirst};

use crate::pair::Pair;
use disks::block::Block;
use disks::disk::Disk;
use disks::reader::Reader;
use disks::refusal::Refusal;
use disks::side::Side;
use disks::state::State;

impl<A: Reader, B: Reader> Pair<A, B> {
    // Side 0's block; side 1's if side 0 is dead, or dies of the read.
    pub(super) fn read_living(&mut self, block: u16, place: &mut Block) -> Result<(), Refusal>
        ensures joined { self.new.joined ≡ self.old.joined }
        ensures steps { ReadsFirst A.Reader B.Reader (A.Reader.view self.old.side0).state self.old block (shown result place.new) self.new }
        ensures place { Untouched result place.old place.new }
    {
        if !matches!(self.side0.state(), State::Dead(_)) {
            match self.side0.read(block, place) {
                Err(Refusal::Lost(_)) => {}
                answer => return answer.map_err(|refusal| refusal.under(Side::Zero.number())),
            }
        }
        self.side1
            .read(block, place)
            .map_err(|refusal| refusal.under(Side::One.number()))
    }
}

impl<A: Disk, B: Disk> Pair<A, B> {
    // Calls side 0, then, unless that answered dark, side 1. The answer goes by the state that the pair has then.
    pub(super) fn in_turn<
        F: FnOnce(&mut A) -> Result<(), Refusal>,
        G: FnOnce(&mut B) -> Result<(), Refusal>,
    >(&mut self, call0: F, call1: G) -> Result<(), Refusal>
        requires call0 { F.IsAlwaysCallable call0 }
        requires call1 { G.IsAlwaysCallable call1 }
        ensures { HandedOn A.Reader B.Reader F.FnOnce call0 G.FnOnce call1 self.old (answer_values result) self.new }
    {
        self.state().answer()?;
        let dark = call_living(&mut self.side0, call0);
        if !dark {
            call_living(&mut self.side1, call1);
        }
        self.state().answer()
    }
}

// Calls a side unless it is dead. True if it answered dark; its one caller answers by the pair's state, so no Result goes on from here.
fn call_living<D: Disk, F: FnOnce(&mut D) -> Result<(), Refusal>>(side: &mut D, call: F) -> bool
    requires { F.IsAlwaysCallable call }
    ensures { Part (D.Reader.view side.old).state (CallOf F.FnOnce call side.old) side.old result side.new }
{
    match side.state() {
        State::Dead(_) => false,
        _ => is_dark(&call(side)),
    }
}

// Such an answer of a side ends the pair's call, here and in a restart.
pub(super) fn is_dark(answer: &Result<(), Refusal>) -> bool
    ensures { result ≡ is_dark (answer_values answer.now) }
{
    matches!(answer, Err(Refusal::Dark(_)))
}
