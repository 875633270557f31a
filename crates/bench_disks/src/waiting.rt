// A write that waits to stand.
use disks::block::Block;

#[derive(Clone, Copy)]
pub struct WaitingWrite {
    pub block: u16,
    pub content: Block,
}
