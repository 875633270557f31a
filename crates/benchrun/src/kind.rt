// The kinds of bench disks: how a new one is made, and what stands of it in the end.
ghost use Rattle.std.specs.Prelude.{◌≡◌, ℕ, IfOk};
ghost use Rattle.bench.specs.Schedules.{words_left};
ghost use Rattle.bench_disks.specs.Calls.{Bench, new_bench};
ghost use Rattle.bench_disks.specs.Disks.{plain_bench, buffered_bench};
ghost use Rattle.bench_disks.specs.Waiting.{Held, put, queue};
ghost use Rattle.benchrun.specs.Kinds.{ByBench, own_account};
ghost use Rattle.disks.specs.Meaning.{Content};

use bench::schedule::Schedule;
use bench_disks::buffered::Buffered;
use bench_disks::plain::Plain;
use disks::disk::Disk;
use std::alloc::{AllocError, Global};

pub(crate) trait Kind: Disk + Drop {
    // The disk as the definitions of bench disks see it.
    ghost bench: { Self → Bench };

    // What a write does, which is the one thing in which the kinds differ.
    ghost effect: { ℕ → Content → Held → Held };

    fn make(heap: Global, memory: Vec<u8>, schedule: Schedule) -> Result<Self, AllocError>
        ensures { IfOk result (λ d. bench d ≡ new_bench (words_left schedule) memory.items) };

    // What stands; what waits is gone.
    fn into_memory(self) -> Vec<u8>
        ensures { result.items ≡ (bench self).held.memory };

    // Its calls are those of the bench.
    ghost by_bench: { ByBench Self.Reader.reads Self.Disk.writes Self.Disk.barriers Self.Disk.restarts bench effect };
}

impl Kind for Plain {
    ghost bench = { plain_bench };

    ghost effect = { put };

    ghost by_bench = { own_account plain_bench put };

    fn make(_heap: Global, memory: Vec<u8>, schedule: Schedule) -> Result<Plain, AllocError> {
        Ok(Plain::new(memory, schedule))
    }

    fn into_memory(self) -> Vec<u8> {
        Plain::into_memory(self)
    }
}

impl Kind for Buffered {
    ghost bench = { buffered_bench };

    ghost effect = { queue };

    ghost by_bench = { own_account buffered_bench queue };

    fn make(heap: Global, memory: Vec<u8>, schedule: Schedule) -> Result<Buffered, AllocError> {
        Buffered::new(heap, memory, schedule).map_err(|_| AllocError)
    }

    fn into_memory(self) -> Vec<u8> {
        Buffered::into_memory(self)
    }
}
