// What restart and format do on a disk. They are handed the disk and nothing else that a store held, so that a program that died loses nothing that they need.
ghost use Rattle.std.specs.Prelude.{◌≡◌, ◌≤◌};
ghost use Rattle.disks.specs.Values.{answer_values};
ghost use Rattle.store.specs.Headers.{header_values};
ghost use Rattle.store.specs.Layout.{empty};
ghost use Rattle.store.specs.Log.{home};
ghost use Rattle.transactions.specs.DiskWork.{RecoversAt, formatting, zeroing};
ghost use Rattle.transactions.specs.Recovery.{recovered};

use crate::disk_work::settle_log;
use crate::store_refusal::StoreRefusal;
use disks::block::BLOCK_BYTES;
use disks::disk::Disk;
use disks::refusal::Refusal;
use store::header::Header;
use store::look::{FIRST_HOME, read_header};

// Restarts the disk and brings home what its log holds. It gives the header that stands then, with N and an empty log.
pub(crate) fn recover<D: Disk>(disk: &mut D, n: u16) -> Result<Header, StoreRefusal>
    ensures { RecoversAt D.Reader D.Disk.own n disk.old (recovered result) disk.new }
{
    disk.restart()?;
    let header = read_header(disk, n)?;
    Ok(settle_log(disk, &header)?)
}

// Restarts the disk and makes it that of a new store: zeros at every address, and the header.
pub(crate) fn format_disk<D: Disk>(disk: &mut D, header: &Header) -> Result<(), Refusal>
    requires { header_values header.now ≡ empty header.now.n }
    ensures { formatting D.Reader D.Disk.own header.now.n disk.old (answer_values result) disk.new }
{
    disk.restart()?;
    write_zeros(disk, header.n())?;
    let bytes = header.pack();
    disk.write(0, &bytes)?;
    disk.barrier()
}

// Zeros to every home block.
fn write_zeros<D: Disk>(disk: &mut D, n: u16) -> Result<(), Refusal>
    requires { n ≤ 4096 }
    ensures { zeroing D.Reader D.Disk.own (home 0) n disk.old (answer_values result) disk.new }
{
    let zeros = [0u8; BLOCK_BYTES];
    for address in 0..n {
        disk.write(FIRST_HOME + address, &zeros)?;
    }
    Ok(())
}
