// A memory, and up to 16 writes that wait to stand there.
ghost use Rattle.std.specs.Prelude.{◌≡◌, ◌<◌, ◌≤◌, All};
ghost use Rattle.std.specs.VecDeque.{deque_len, deque_capacity};
ghost use Rattle.disks.specs.Blocks.{whole_blocks};

use crate::memory::Memory;
use crate::waiting::WaitingWrite;
use std::collections::VecDeque;

#[derive(Drop)]
pub struct Cache {
    memory: Memory,
    // The oldest is in front.
    waiting: VecDeque<WaitingWrite>,
    ghost few: { deque_len waiting ≤ 16 },
    // So that no call allocates.
    ghost reserved: { 16 ≤ deque_capacity waiting },
    ghost placed: { All (λ w. w.block < whole_blocks memory.bytes.items) waiting.items },
}

mod calls;
