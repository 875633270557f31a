// What can also be written: the trait that bench disks and pairs implement.
ghost use Rattle.std.specs.Prelude.{◌≡◌, ℕ};
ghost use Rattle.disks.specs.Values.{Answer, answer_values};
ghost use Rattle.disks.specs.Meaning.{Content, Means, WriteMeans, BarrierMeans, RestartMeans};
ghost use Rattle.disks.specs.Meaning.{WriteLaw, BarrierLaw, RestartLaw};
ghost use Rattle.disks.specs.Piles.{Tree, is_dead, lost as lost_tree};

use crate::block::Block;
use crate::lawful_reader::LawfulReader;
use crate::refusal::Refusal;

pub trait Disk: LawfulReader {
    // The disk's own account of each call, as `reads` is of a read.
    ghost writes: { Self → ℕ → Content → Answer Unit → Self → Type 0 };

    ghost barriers: { Self → Answer Unit → Self → Type 0 };

    ghost restarts: { Self → Answer Unit → Self → Type 0 };

    // The states of its bottom disks.
    ghost bottoms: { Self → Tree };

    // Makes the content the face of the block. It may wait until a barrier.
    fn write(&mut self, block: u16, content: &Block) -> Result<(), Refusal>
        ensures steps { writes self.old block content.now (answer_values result) self.new }
        ensures means { Means Self.Reader.view Self.Reader.sound self.old self.new (λ v w. WriteMeans v block content.now (answer_values result) w) };

    // Lets all that waits stand.
    fn barrier(&mut self) -> Result<(), Refusal>
        ensures steps { barriers self.old (answer_values result) self.new }
        ensures means { Means Self.Reader.view Self.Reader.sound self.old self.new (λ v w. BarrierMeans v (answer_values result) w) };

    // Brings a living disk on; what waited stands or is gone.
    fn restart(&mut self) -> Result<(), Refusal>
        ensures steps { restarts self.old (answer_values result) self.new }
        ensures means { Means Self.Reader.view Self.Reader.sound self.old self.new (λ v w. RestartMeans v (answer_values result) w) };

    ghost writing: { WriteLaw Self.Reader.view Self.Reader.sound writes };

    ghost flushing: { BarrierLaw Self.Reader.view Self.Reader.sound barriers };

    ghost restarting: { RestartLaw Self.Reader.view Self.Reader.sound restarts };

    ghost losing: { (s : Self) → Self.Reader.sound s → is_dead (Self.Reader.view s).state ≡ lost_tree (bottoms s) };
}
