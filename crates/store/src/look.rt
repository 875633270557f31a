// Look: one block of the plan, as the store on a reader holds it.
ghost use Rattle.std.specs.Prelude.{◌≡◌, Err, ◌≢◌};
ghost use Rattle.disks.specs.Meaning.{Untouched, Means};
ghost use Rattle.disks.specs.Values.{PastEnd};
ghost use Rattle.store.specs.LookValues.{looked, header_looked, Disk};
ghost use Rattle.store.specs.Looks.{plan_of, SizeExamples, Looks, LookMeans, ReadsHeader, met};

use crate::header::Header;
use crate::look_refusal::LookRefusal;
use disks::block::{BLOCK_BYTES, Block};
use disks::reader::Reader;

// The log takes the 32 blocks after the header, so that address 0 has block 33.
pub const FIRST_HOME: u16 = 33;

// Puts into the place the block that the plan holds at the address.
pub fn look<R: Reader>(reader: &mut R, address: u16, place: &mut Block) -> Result<(), LookRefusal>
    ensures steps { Looks R.Reader reader.old address (looked result place.new) reader.new }
    ensures means { Means R.Reader.view R.Reader.sound reader.old reader.new (λ v w. LookMeans v address (looked result place.new) w) }
    ensures place { Untouched result place.old place.new }
    ensures inside { R.Reader.sound reader.old → looked result place.new ≢ Err (Disk PastEnd) }
{
    let n = plan_size(reader.size()).ok_or(LookRefusal::UnfitSize)?;
    let header = read_header(reader, n)?;
    if address >= n {
        return Err(LookRefusal::PastPlan);
    }
    let block = header.slot_of(address).unwrap_or(FIRST_HOME + address);
    reader.read(block, place)?;
    Ok(())
}

// N of a store that takes up `size` blocks.
pub fn plan_size(size: u16) -> Option<u16>
    ensures value { result ≡ plan_of size }
    ensures examples { SizeExamples }
{
    match size {
        34..=4129 => Some(size - FIRST_HOME),
        _ => None,
    }
}

// The header in block 0, if it is that of a store of N addresses.
pub fn read_header<R: Reader>(reader: &mut R, n: u16) -> Result<Header, LookRefusal>
    ensures { ReadsHeader (met R.Reader) n reader.old (header_looked result) reader.new }
{
    let mut bytes = [0u8; BLOCK_BYTES];
    reader.read(0, &mut bytes)?;
    Header::unpack(&bytes)
        .filter(|header| header.n() == n)
        .ok_or(LookRefusal::NoHeader)
}
