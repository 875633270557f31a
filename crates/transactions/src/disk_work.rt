// The work that settle and commit do on a disk.
ghost use Rattle.std.specs.Prelude.{◌≡◌, ℕ, ◌<◌, ◌≤◌, length, slice_index, IfOk};
ghost use Rattle.disks.specs.Values.{answer_values};
ghost use Rattle.store.specs.Headers.{header_values};
ghost use Rattle.store.specs.Layout.{empty};
ghost use Rattle.transactions.specs.Calls.{bare};
ghost use Rattle.transactions.specs.DiskWork.{heading, settling, copying, copying_home};

use disks::block::BLOCK_BYTES;
use disks::disk::Disk;
use disks::refusal::Refusal;
use store::header::Header;
use store::look::FIRST_HOME;

// Writes the header between two barriers: all that it speaks of stands before it, and it stands itself.
pub(crate) fn put_header<D: Disk>(disk: &mut D, header: &Header) -> Result<(), Refusal>
    ensures { heading D.Reader D.Disk.own (header_values header.now) disk.old (answer_values result) disk.new }
{
    let bytes = header.pack();
    disk.barrier()?;
    disk.write(0, &bytes)?;
    disk.barrier()
}

// Brings the blocks of the header's log home, and then empties the log. It gives the header that stands then.
pub(crate) fn settle_log<D: Disk>(disk: &mut D, header: &Header) -> Result<Header, Refusal>
    ensures steps { settling D.Reader D.Disk.own (header_values header.now).n (header_values header.now).log disk.old (bare (answer_values result)) disk.new }
    ensures settled { IfOk result (λ h. header_values h ≡ empty (header_values header.now).n) }
{
    if header.log().is_empty() {
        return Ok(*header);
    }
    copy_home(disk, header.log())?;
    let mut settled = *header;
    settled.truncate(0);
    put_header(disk, &settled)?;
    Ok(settled)
}

// The block of slot 1 + i goes to the home of address i of the log.
fn copy_home<D: Disk>(disk: &mut D, log: &[u16]) -> Result<(), Refusal>
    requires few { length log.now ≤ 32 }
    requires low { (i : ℕ) → i < length log.now → slice_index log.now i < 4096 }
    ensures { copying_home D.Reader D.Disk.own 1 log.now disk.old (answer_values result) disk.new }
{
    // A log has at most 32 addresses, so its places are no wider than a block's number.
    for (i, address) in log.iter().enumerate() {
        copy_block(disk, 1 + i as u16, FIRST_HOME + *address)?;
    }
    Ok(())
}

fn copy_block<D: Disk>(disk: &mut D, from: u16, to: u16) -> Result<(), Refusal>
    ensures { copying D.Reader D.Disk.own from to disk.old (answer_values result) disk.new }
{
    let mut place = [0u8; BLOCK_BYTES];
    disk.read(from, &mut place)?;
    disk.write(to, &place)
}
