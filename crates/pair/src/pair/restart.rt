// What the sides do in a restart of their pair.
ghost use Rattle.std.specs.Prelude.{◌≡◌};
ghost use Rattle.pair.specs.Restarts.{RestartsSides};

use crate::copy::copy_over;
use crate::pair::Pair;
use crate::pair::calls::is_dark;
use disks::disk::Disk;

impl<A: Disk, B: Disk> Pair<A, B> {
    pub(super) fn restart_sides(&mut self)
        ensures joined { self.new.joined ≡ self.old.joined }
        ensures sides { RestartsSides A.Reader A.Disk.own B.Disk.own self.old.side0 self.old.side1 self.new.side0 self.new.side1 }
    {
        let answer0 = self.side0.restart();
        if is_dark(&answer0) {
            return;
        }
        let answer1 = self.side1.restart();
        if answer0.is_ok() && answer1.is_ok() {
            copy_over(&mut self.side0, &mut self.side1);
        }
    }
}
