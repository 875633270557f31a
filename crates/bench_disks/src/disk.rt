// A bench disk: what it holds, and the faults that it meets.
ghost use Rattle.std.specs.Prelude.{◌≡◌, refl};
ghost use Rattle.std.specs.Fn.{FnOnceTakesAtMut};
ghost use Rattle.disks.specs.Values.{answer_values, cause_values};
ghost use Rattle.disks.specs.Piles.{bottom};
ghost use Rattle.bench_disks.specs.Waiting.{Held};
ghost use Rattle.bench_disks.specs.Calls.{answered, called, reads as reads_of, writes as writes_of, barriers as barriers_of, restarts as restarts_of};
ghost use Rattle.bench_disks.specs.Views.{view_of, Sound};
ghost use Rattle.bench_disks.specs.Disks.{bench_of, HasEffect};
ghost use Rattle.bench_disks.specs.Keeping.{bench_proper, read_law, write_law, barrier_law, restart_law};

use crate::faults::Faults;
use crate::holding::Holding;
use bench::schedule::Verb;
use disks::block::Block;
use disks::cause::{Call, Cause};
use disks::disk::Disk;
use disks::lawful_reader::LawfulReader;
use disks::reader::Reader;
use disks::refusal::Refusal;
use disks::state::State;

#[derive(Drop)]
pub struct BenchDisk<H> {
    pub(crate) held: H,
    pub(crate) faults: Faults,
}

impl<H: Holding> BenchDisk<H> {
    // What stands; what waits is gone.
    pub fn into_memory(self) -> Vec<u8>
        ensures { result.items ≡ (bench_of H.held self).held.memory }
    {
        let BenchDisk { held, faults: _ } = self;
        held.into_memory()
    }

    // Takes the step of a read, a write or a barrier, which goes on to its effect, is cut before or after it, or dies before it.
    #[inline(always)]
    fn call<F: FnOnce(&mut H) + Drop>(&mut self, cause: Cause, effect: F) -> Result<(), Refusal>
        requires { FnOnceTakesAtMut F.FnOnce effect self.old.held }
        ensures { (f : Held → Held) → HasEffect H.held F.FnOnce effect f self.old.held → (answer_values result, bench_of H.held self.new) ≡ answered tt (called (cause_values cause) f (bench_of H.held self.old)) }
    {
        if let Some(step) = self.faults.meet(cause) {
            match step.verb {
                Verb::Go => effect(&mut self.held),
                Verb::CutBefore => self.held.cut(step.pick),
                Verb::CutAfter => {
                    effect(&mut self.held);
                    self.held.cut(step.pick);
                }
                Verb::Kill => {}
            }
        }
        self.faults.state().answer()
    }
}

impl<H: Holding> Reader for BenchDisk<H> {
    ghost view = { λ d. view_of (bench_of H.held d) };

    ghost sound = { λ d. Sound (bench_of H.held d) };

    ghost reads = { λ s k x t. (x, bench_of H.held t) ≡ reads_of k (bench_of H.held s) };

    fn size(&self) -> u16 {
        self.held.size()
    }

    fn height(&self) -> u8 {
        0
    }

    fn state(&self) -> State {
        self.faults.state()
    }

    // So that a block is not copied once more on its way; here and at the write.
    #[inline(always)]
    fn read(&mut self, block: u16, place: &mut Block) -> Result<(), Refusal> {
        if block >= self.held.size() {
            return Err(Refusal::PastEnd);
        }
        let answer = self.call(Cause::from(Call::Read(block)), |_| {});
        if answer.is_ok() {
            self.held.face(block, place);
        }
        answer
    }
}

impl<H: Holding> LawfulReader for BenchDisk<H> {
    ghost proper = { λ s snd. bench_proper (bench_of H.held s) snd };

    ghost reading = { λ s t k x h snd. read_law (bench_of H.held s) (bench_of H.held t) snd k x h };
}

impl<H: Holding> Disk for BenchDisk<H> {
    ghost writes = { λ s k b r t. (r, bench_of H.held t) ≡ writes_of H.effect k b (bench_of H.held s) };

    ghost barriers = { λ s r t. (r, bench_of H.held t) ≡ barriers_of (bench_of H.held s) };

    ghost restarts = { λ s r t. (r, bench_of H.held t) ≡ restarts_of (bench_of H.held s) };

    ghost bottoms = { λ d. bottom (bench_of H.held d).state };

    ghost writing = { λ s t k b r whole h snd. write_law (bench_of H.held s) (bench_of H.held t) snd H.effect k b r (λ lt. H.wrote s.held k b snd.held lt whole) h };

    ghost flushing = { λ s t r h snd. barrier_law (bench_of H.held s) (bench_of H.held t) snd r h };

    ghost restarting = { λ s t r h snd. restart_law (bench_of H.held s) (bench_of H.held t) snd r h };

    ghost losing = { λ s snd. refl };

    #[inline(always)]
    fn write(&mut self, block: u16, content: &Block) -> Result<(), Refusal> {
        if block >= self.held.size() {
            return Err(Refusal::PastEnd);
        }
        self.call(
            Cause::from(Call::Write(block)),
            |held| held.write(block, content),
        )
    }

    fn barrier(&mut self) -> Result<(), Refusal> {
        self.call(Cause::from(Call::Barrier), |held| held.flush())
    }

    fn restart(&mut self) -> Result<(), Refusal> {
        if let Some(pick) = self.faults.restart() {
            self.held.cut(pick);
        }
        self.faults.state().answer()
    }
}
