// The making of a pair.
ghost use Rattle.std.specs.Prelude.{◌≡◌, IfOk};
ghost use Rattle.disks.specs.Piles.{LostExactly};
ghost use Rattle.pair.specs.Sides.{Sound, OneHigher, DeadIfBoth, DeadWithBottoms, FacesStandToo};
ghost use Rattle.pair.specs.Making.{fit_of, made_of};

use crate::pair::Pair;
use crate::refusal::{PairRefusal, Unpaired};
use disks::disk::Disk;
use disks::reader::Reader;

impl<A: Disk, B: Disk> Pair<A, B> {
    // A new pair is not joined: it is dark, or dead, until a restart of it is done.
    #[tactic(auto, using(disks::proofs::Losing::lost_exactly))]
    pub fn new(side0: A, side1: B) -> Result<Pair<A, B>, Unpaired<A, B>>
        ensures value { result ≡ made_of A.Reader B.Reader side0 side1 }
        ensures sound { A.Reader.sound side0 → B.Reader.sound side1 → IfOk result (λ p. Sound A.Reader B.Reader p) }
        ensures height { OneHigher A.Reader B.Reader }
        ensures dead { DeadIfBoth A.Reader B.Reader }
        ensures bottoms { DeadWithBottoms A.Reader A.Disk.own B.Reader B.Disk.own }
        ensures lost { LostExactly }
        ensures stand { FacesStandToo A.Reader B.Reader }
    {
        match fit(&side0, &side1) {
            Ok(()) => Ok(Pair {
                side0,
                side1,
                joined: false,
            }),
            Err(refusal) => Err(Unpaired {
                refusal,
                side0,
                side1,
            }),
        }
    }
}

// Whether the sides make a pair: first by their sizes, then by their heights.
fn fit<A: Reader, B: Reader>(side0: &A, side1: &B) -> Result<(), PairRefusal>
    ensures { result ≡ fit_of A.Reader B.Reader side0.now side1.now }
{
    if side0.size() != side1.size() {
        Err(PairRefusal::UnequalSizes)
    } else if side0.height().max(side1.height()) >= 8 {
        Err(PairRefusal::TooHigh)
    } else {
        Ok(())
    }
}
