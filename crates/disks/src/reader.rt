// What can be read, block by block: the trait that images, disks and pairs implement.
ghost use Rattle.std.specs.Prelude.{◌≡◌, ℕ};
ghost use Rattle.disks.specs.Values.{state_values};
ghost use Rattle.disks.specs.Meaning.{View, Shown, shown, Untouched, Proper, Means, ReadMeans};

use crate::block::Block;
use crate::refusal::Refusal;
use crate::state::State;

pub trait Reader {
    // What the reader shows: size, height, state, and the face and the candidates of each block.
    ghost view: { Self → View };

    // Holds of each value that the reader's making and its calls can leave.
    ghost sound: { Self → Type 0 };

    // The reader's own account of a read: the reader before, the block, the answer, the reader after.
    ghost reads: { Self → ℕ → Shown → Self → Type 0 };

    // The number of blocks.
    fn size(&self) -> u16
        ensures { result ≡ (view self.now).size };

    // How many pairs lie above the lowest bottom disk.
    fn height(&self) -> u8
        ensures { result ≡ (view self.now).height };

    fn state(&self) -> State
        ensures { state_values result ≡ (view self.now).state };

    // Puts the face of the block into the place. The place is the caller's, so each call that takes one says itself what a refusal leaves of it.
    fn read(&mut self, block: u16, place: &mut Block) -> Result<(), Refusal>
        ensures steps { reads self.old block (shown result place.new) self.new }
        ensures means { Means view sound self.old self.new (λ v w. ReadMeans v block (shown result place.new) w) }
        ensures place { Untouched result place.old place.new }
        ensures proper { sound self.old → Proper (view self.old) × Proper (view self.new) };
}
