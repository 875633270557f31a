// The memory of a bench disk: bytes in a row, taken as blocks. A write to it stands at once.
ghost use Rattle.std.specs.Prelude.{◌≡◌, ℕ, ◌<◌, slice_index};
ghost use Rattle.bench_disks.specs.Waiting.{put};
ghost use Rattle.bench_disks.specs.Caches.{memory_held};
ghost use Rattle.bench_disks.specs.Holding.{put_wrote};

use crate::holding::Holding;
use disks::block::{Block, count_blocks, get_block, put_block};

#[derive(Drop)]
pub struct Memory {
    bytes: Vec<u8>,
}

impl Memory {
    pub(crate) fn new(bytes: Vec<u8>) -> Memory
        ensures items { result.bytes.items ≡ bytes.items }
        ensures bytes { (j : ℕ) → slice_index bytes.items j < 256 }
    {
        Memory { bytes }
    }
}

impl Holding for Memory {
    ghost held = { memory_held };

    ghost effect = { put };

    ghost wrote = { λ s k b snd lt whole. put_wrote _ k b snd lt whole };

    fn size(&self) -> u16 {
        count_blocks(&self.bytes)
    }

    fn face(&self, block: u16, place: &mut Block) {
        get_block(&self.bytes, block, place);
    }

    fn write(&mut self, block: u16, content: &Block) {
        put_block(&mut self.bytes, block, content);
    }

    // Nothing ever waits.
    fn flush(&mut self) {}

    fn cut(&mut self, _pick: u16) {}

    fn into_memory(self) -> Vec<u8> {
        let Memory { bytes } = self;
        bytes
    }
}
