// The sides of a trail, and how it grows from below.
ghost use Rattle.std.specs.Prelude.{◌≡◌, ◌≤◌, ℕ, slice_index, Some};
ghost use Rattle.disks.specs.Values.{numbers_of, sides_of, trail_values};
ghost use Rattle.disks.specs.Trails.{trail_under};
ghost use Rattle.disks.specs.Text.{trail_text};

use super::Trail;
use super::lists::{LISTS, one_of};
use crate::side::Side;
use std::fmt;

impl Trail {
    // The numbers of its sides.
    pub fn numbers(&self) -> &[u8]
        ensures { result.now ≡ numbers_of self.now }
    {
        &self.sides[..usize::from(self.depth)]
    }

    // Any numbers can be put into a trail; one that is no side's is taken for side 1.
    pub fn sides(&self) -> &[Side]
        ensures value { result.now ≡ sides_of self.now }
        ensures numbers { ((j : ℕ) → slice_index (numbers_of self.now) j ≤ 1) → trail_values result.now ≡ numbers_of self.now }
    {
        let [s0, s1, s2, s3, s4, s5, s6, s7] = self.sides;
        let half = one_of(one_of(one_of(one_of(&LISTS, s0), s1), s2), s3);
        let list = one_of(one_of(one_of(one_of(half, s4), s5), s6), s7);
        &list[..usize::from(self.depth)]
    }

    // The side is put before the others; a ninth falls off at the end.
    pub fn under(self, side: u8) -> Trail
        ensures { numbers_of result ≡ trail_under side (numbers_of self) }
    {
        let [s0, s1, s2, s3, s4, s5, s6, _] = self.sides;
        Trail {
            depth: self.depth.min(7) + 1,
            sides: [side, s0, s1, s2, s3, s4, s5, s6],
        }
    }
}

impl fmt::Display for Trail {
    ghost output = { λ t. Some (trail_text (numbers_of t)) };

    // The sides one after another, or a dash.
    fn fmt<W: fmt::Write>(&self, f: &mut fmt::Formatter<W>) -> fmt::Result {
        if self.numbers().is_empty() {
            return f.write_str("-");
        }
        for side in self.numbers() {
            write!(f, "{side}")?;
        }
        Ok(())
    }
}
