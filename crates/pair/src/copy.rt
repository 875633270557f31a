// The copy of one disk over another, block by block in order.
ghost use Rattle.pair.specs.Restarts.{CopiesOne, Copies, CopiesOver};

use disks::block::{BLOCK_BYTES, Block};
use disks::disk::Disk;
use disks::reader::Reader;
use disks::refusal::Refusal;

// Why a copy stopped before its end.
#[derive(Clone, Copy, Debug, PartialEq, Eq)]
pub(crate) enum CopyStop {
    // The disk that was read died.
    SourceDied,
    // It went dark, or the disk that was written went dark or died.
    Ended,
}

// The barrier lets the copied blocks stand. If the source died, it is due too: the other disk is all there is then.
// The disks are two parameters: one is only read, and a struct of both would be taken apart at once.
pub(crate) fn copy_over<A: Disk, B: Disk>(from: &mut A, to: &mut B)
    ensures { CopiesOver A.Reader B.Disk.own from.old to.old from.new to.new }
{
    let blocks = from.size();
    if copy_blocks(from, to, blocks) != Err(CopyStop::Ended) {
        let _ = to.barrier();
    }
}

fn copy_blocks<A: Reader, B: Disk>(from: &mut A, to: &mut B, blocks: u16) -> Result<(), CopyStop>
    ensures { Copies A.Reader B.Disk.own blocks from.old to.old result from.new to.new }
{
    let mut place = [0; BLOCK_BYTES];
    for block in 0..blocks {
        copy_block(from, to, block, &mut place)?;
    }
    Ok(())
}

fn copy_block<A: Reader, B: Disk>(
    from: &mut A,
    to: &mut B,
    block: u16,
    place: &mut Block,
) -> Result<(), CopyStop>
    ensures { CopiesOne A.Reader B.Disk.own block from.old to.old result from.new to.new }
{
    from.read(block, place).map_err(|refusal| match refusal {
        Refusal::Lost(_) => CopyStop::SourceDied,
        _ => CopyStop::Ended,
    })?;
    to.write(block, place).map_err(|_| CopyStop::Ended)
}
