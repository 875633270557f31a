// Where two blocks differ first.
ghost use Rattle.std.specs.Prelude.{◌≡◌, ◌<◌, ◌==◌, IfSome, Some, not};
ghost use Rattle.std.specs.List.{position_from, zip};
ghost use Rattle.compare.specs.Differences.{difference, FirstDifference};
ghost use Rattle.compare.specs.Lines.{difference_text};

use disks::block::Block;
use std::fmt;

#[derive(Clone, Copy, Debug, PartialEq, Eq)]
pub struct Difference {
    pub address: u16,
    // The first byte that differs, counted from 0.
    pub offset: u16,
    pub old: u8,
    pub new: u8,
}

impl fmt::Display for Difference {
    ghost output = { λ d. Some (difference_text d) };

    fn fmt<W: fmt::Write>(&self, f: &mut fmt::Formatter<W>) -> fmt::Result {
        let Difference {
            address,
            offset,
            old,
            new,
        } = *self;
        write!(f, "{address} {offset} {old} {new}")
    }
}

// None where the blocks are equal.
pub fn first_difference(address: u16, old: &Block, new: &Block) -> Option<Difference>
    ensures value { result ≡ difference address 0 old.now new.now }
    ensures first { FirstDifference address old.now new.now result }
{
    let offset = first_unequal(old, new)?;
    Some(Difference {
        address,
        // A block has 512 bytes, so that none is left to fail.
        offset: offset as u16,
        old: old[offset],
        new: new[offset],
    })
}

fn first_unequal(old: &Block, new: &Block) -> Option<usize>
    ensures place { result ≡ position_from (λ p. not (p.0 == p.1)) 0 (zip old.now new.now) }
    ensures within { IfSome result (λ i. i < 512) }
{
    old.iter().zip(new).position(|(old, new)| old != new)
}
