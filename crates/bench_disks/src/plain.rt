// The plain disk: a write stands before it answers.
ghost use Rattle.std.specs.Prelude.{◌≡◌};
ghost use Rattle.bench.specs.Schedules.{words_left};
ghost use Rattle.bench_disks.specs.Waiting.{put};
ghost use Rattle.bench_disks.specs.Calls.{new_bench};
ghost use Rattle.bench_disks.specs.Views.{Sound};
ghost use Rattle.bench_disks.specs.Laws.{BenchLaws};
ghost use Rattle.bench_disks.specs.Disks.{plain_bench};

use crate::disk::BenchDisk;
use crate::faults::Faults;
use crate::memory::Memory;
use bench::schedule::Schedule;

pub type Plain = BenchDisk<Memory>;

impl Plain {
    // Any memory and any schedule make a disk, which is on.
    #[tactic(auto, using(crate::proofs::Lawful::plain_laws))]
    pub fn new(memory: Vec<u8>, schedule: Schedule) -> Plain
        ensures disk { plain_bench result ≡ new_bench (words_left schedule) memory.items }
        ensures sound { Sound (plain_bench result) }
        ensures laws { BenchLaws put }
    {
        BenchDisk {
            held: Memory::new(memory),
            faults: Faults::new(schedule),
        }
    }
}
