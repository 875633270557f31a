// The comparison of two stores that stand in memory.
ghost use Rattle.std.specs.Prelude.{◌≡◌, IfOk};
ghost use Rattle.disks.specs.Blocks.{whole_blocks};
ghost use Rattle.disks.specs.Images.{bytes_view};
ghost use Rattle.disks.specs.Values.{On};
ghost use Rattle.compare.specs.Outcomes.{outcome};
ghost use Rattle.compare.specs.Compares.{shared, lone, Answers};

use crate::comparison::{Comparison, compare};
use crate::room::Room;
use crate::stop::Stop;
use disks::image::Image;

pub fn compare_images(room: Room, old: &[u8], new: &[u8]) -> Result<Comparison, Stop>
    ensures answer { Answers (shared (whole_blocks old.now) (whole_blocks new.now)) (bytes_view old.now) (bytes_view new.now) (outcome result) On On }
    ensures counts { IfOk result (λ c. (c.compared ≡ shared (whole_blocks old.now) (whole_blocks new.now)) × (c.only ≡ lone (whole_blocks old.now) (whole_blocks new.now))) }
{
    let mut old_image = Image::new(old);
    let mut new_image = Image::new(new);
    compare(room, &mut old_image, &mut new_image)
}
