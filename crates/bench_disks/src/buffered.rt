// The buffered disk: a write waits, and a cut lets it stand or vanish.
ghost use Rattle.std.specs.Prelude.{◌≡◌, IfOk, MatchResult};
ghost use Rattle.bench.specs.Schedules.{words_left};
ghost use Rattle.bench_disks.specs.Waiting.{queue as queued};
ghost use Rattle.bench_disks.specs.Calls.{new_bench};
ghost use Rattle.bench_disks.specs.Views.{Sound};
ghost use Rattle.bench_disks.specs.Laws.{BenchLaws, CutLaws};
ghost use Rattle.bench_disks.specs.Disks.{buffered_bench};

use crate::cache::Cache;
use crate::disk::BenchDisk;
use crate::faults::Faults;
use bench::schedule::Schedule;
use std::alloc::Global;

pub type Buffered = BenchDisk<Cache>;

// No disk was made, since there was no memory for 16 waiting writes; what it was to be made of.
#[derive(Drop)]
pub struct NoRoom {
    pub memory: Vec<u8>,
    pub schedule: Schedule,
}

impl Buffered {
    // Any memory and any schedule make a disk, which is on, with nothing waiting.
    #[tactic(auto, using(crate::proofs::Lawful::buffered_laws, crate::proofs::Lawful::cut_laws))]
    pub fn new(heap: Global, memory: Vec<u8>, schedule: Schedule) -> Result<Buffered, NoRoom>
        ensures disk { MatchResult result (λ d. buffered_bench d ≡ new_bench (words_left schedule) memory.items) (λ e. (e.memory ≡ memory) × (e.schedule ≡ schedule)) }
        ensures sound { IfOk result (λ d. Sound (buffered_bench d)) }
        ensures laws { BenchLaws queued }
        ensures cuts { CutLaws }
    {
        match Cache::new(heap, memory) {
            Ok(held) => Ok(BenchDisk {
                held,
                faults: Faults::new(schedule),
            }),
            Err(memory) => Err(NoRoom { memory, schedule }),
        }
    }
}
