// The way from the top pair of a pile down to one of its disks.
ghost use Rattle.disks.specs.TrailSides.{KeepsSides};

mod lists;
mod sides;

// At most eight sides, top pair first, since no disk is higher. An array and not a `Vec`: a cause is copied, and telling it
// may not want memory.
#[derive(Clone, Copy, Debug, PartialEq, Eq)]
pub struct Trail {
    // How many of `sides` are the trail; the others are 0.
    depth: u8,
    sides: [u8; 8],
    ghost keeps: { KeepsSides depth sides },
}

impl Trail {
    pub const EMPTY: Trail = Trail {
        depth: 0,
        sides: [0; 8],
    };
}
