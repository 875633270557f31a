// Reading, writing and cutting what a buffered disk holds.
ghost use Rattle.std.specs.Prelude.{◌≡◌, ℕ, ◌<◌, [], MatchResult, slice_index};
ghost use Rattle.std.specs.Option.{option_map_or};
ghost use Rattle.std.specs.VecDeque.{deque_len};
ghost use Rattle.disks.specs.Meaning.{Content};
ghost use Rattle.bench_disks.specs.Waiting.{newest as newest_of, size_of, room, queue as queued};
ghost use Rattle.bench_disks.specs.Caches.{held as held_of};
ghost use Rattle.bench_disks.specs.Holding.{queue_wrote};

use super::Cache;
use crate::holding::Holding;
use crate::memory::Memory;
use crate::waiting::WaitingWrite;
use disks::block::Block;
use std::alloc::Global;
use std::collections::VecDeque;

// The last of the writes that is to the block.
fn last_to(writes: &[WaitingWrite], block: u16) -> Option<&WaitingWrite>
    ensures { (standing : Content) → newest_of writes.now block standing ≡ option_map_or (λ w. w.now.content) result standing }
{
    writes.iter().rev().find(|write| write.block == block)
}

impl Cache {
    // Over a memory, which is given back if there is no room for 16 waiting writes.
    pub(crate) fn new(heap: Global, memory: Vec<u8>) -> Result<Cache, Vec<u8>>
        ensures { MatchResult result (λ c. (held_of c ≡ record { waiting = []; memory = memory.items }) × ((j : ℕ) → slice_index memory.items j < 256)) (λ m. m ≡ memory) }
    {
        match VecDeque::with_capacity(heap, 16) {
            Ok(waiting) => Ok(Cache {
                memory: Memory::new(memory),
                waiting,
            }),
            Err(_) => Err(memory),
        }
    }

    // The newest of the waiting writes to the block.
    #[tactic(auto, using(crate::proofs::Newest::newest_append))]
    fn newest(&self, block: u16) -> Option<&WaitingWrite>
        ensures { (standing : Content) → newest_of self.now.waiting.items block standing ≡ option_map_or (λ w. w.now.content) result standing }
    {
        // Slice by slice: the queue's own iterator takes a third longer from the back.
        let (older, newer) = self.waiting.as_slices();
        match last_to(newer, block) {
            None => last_to(older, block),
            found => found,
        }
    }

    // If 16 wait, the oldest stands.
    fn make_room(&mut self)
        ensures after { held_of self.new ≡ room (held_of self.old) }
        ensures few { deque_len self.new.waiting < 16 }
        ensures size { size_of (held_of self.new) ≡ size_of (held_of self.old) }
    {
        if self.waiting.len() < 16 {
            return;
        }
        if let Some(oldest) = self.waiting.pop_front() {
            self.memory.write(oldest.block, &oldest.content);
        }
    }
}

impl Holding for Cache {
    ghost held = { held_of };

    ghost effect = { queued };

    ghost wrote = { λ s k b snd lt whole. queue_wrote _ k b snd lt whole };

    fn size(&self) -> u16 {
        self.memory.size()
    }

    fn face(&self, block: u16, place: &mut Block) {
        match self.newest(block) {
            Some(write) => *place = write.content,
            None => self.memory.face(block, place),
        }
    }

    // It waits.
    fn write(&mut self, block: u16, content: &Block) {
        self.make_room();
        let write = WaitingWrite {
            block,
            content: *content,
        };
        self.waiting.push_back_reserved(write);
    }

    // As a cut that picks all, since at most 16 wait.
    fn flush(&mut self) {
        self.cut(u16::MAX);
    }

    // Those stand, oldest first, whose bit of the pick is one: the bit worth 1 is that of the oldest.
    fn cut(&mut self, pick: u16) {
        let mut bits = pick;
        while let Some(write) = self.waiting.pop_front() {
            if bits % 2 == 1 {
                self.memory.write(write.block, &write.content);
            }
            bits /= 2;
        }
    }

    fn into_memory(self) -> Vec<u8> {
        let Cache { memory, waiting: _ } = self;
        memory.into_memory()
    }
}
