// What a bench disk holds: blocks that stand, and writes that may wait.
ghost use Rattle.std.specs.Prelude.{◌≡◌, ℕ, ◌<◌};
ghost use Rattle.disks.specs.Meaning.{Content, Whole};
ghost use Rattle.bench_disks.specs.Waiting.{Held, size_of, face_of, flush as flushed, cut as cut_by};
ghost use Rattle.bench_disks.specs.Views.{SoundHeld};
ghost use Rattle.bench_disks.specs.Holding.{Wrote};

use disks::block::Block;

// How a write takes effect is the one thing in which the bench disks differ.
pub(crate) trait Holding {
    ghost held: { Self → Held };

    // What a write does.
    ghost effect: { ℕ → Content → Held → Held };

    fn size(&self) -> u16
        ensures { result ≡ size_of (held self.now) };

    // Puts the face of the block into the place.
    fn face(&self, block: u16, place: &mut Block)
        requires { block < size_of (held self.now) }
        ensures { place.new ≡ face_of (held self.now) block };

    fn write(&mut self, block: u16, content: &Block)
        requires { block < size_of (held self.old) }
        ensures after { held self.new ≡ effect block content.now (held self.old) }
        ensures size { size_of (held self.new) ≡ size_of (held self.old) };

    // All that waits stands.
    fn flush(&mut self)
        ensures { held self.new ≡ flushed (held self.old) };

    // What waits stands by the pick, or vanishes.
    fn cut(&mut self, pick: u16)
        ensures { held self.new ≡ cut_by pick (held self.old) };

    // What stands; what waits is gone.
    fn into_memory(self) -> Vec<u8>
        ensures { result.items ≡ (held self).memory };

    // Where what is held is sound, a write shows at its block alone.
    ghost wrote: { (s : Self) (k : ℕ) (b : Content) → SoundHeld (held s) → k < size_of (held s) → Whole b → Wrote (held s) k b (effect k b (held s)) };
}
