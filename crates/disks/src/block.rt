// The unit of every call, a block of 512 bytes, and bytes in a row taken as blocks.
ghost use Rattle.std.specs.Prelude.{◌≡◌, ◌<◌, if◌then◌else◌, nat_lt};
ghost use Rattle.disks.specs.Blocks.{whole_blocks, block_of, with_block, BlocksApart};

pub const BLOCK_BYTES: usize = 512;

pub type Block = [u8; BLOCK_BYTES];

// The number of whole blocks, at most 65,535.
pub fn count_blocks(bytes: &[u8]) -> u16
    ensures { result ≡ whole_blocks bytes.now }
{
    let whole = bytes.len() / BLOCK_BYTES;
    u16::try_from(whole).unwrap_or(u16::MAX)
}

// Puts a block of the bytes into the place. Past the last block it leaves the place as it was.
pub fn get_block(bytes: &[u8], block: u16, place: &mut Block)
    ensures { place.new ≡ (if nat_lt block (whole_blocks bytes.now) then block_of bytes.now block else place.old) }
{
    if block < count_blocks(bytes) {
        copy_block(bytes, block, place);
    }
}

pub(crate) fn copy_block(bytes: &[u8], block: u16, place: &mut Block)
    requires { block < whole_blocks bytes.now }
    ensures { place.new ≡ block_of bytes.now block }
{
    let start = BLOCK_BYTES * usize::from(block);
    place.copy_from_slice(&bytes[start..start + BLOCK_BYTES]);
}

// Puts the content into a block of the bytes. Past the last block it leaves the bytes as they were.
pub fn put_block(bytes: &mut [u8], block: u16, content: &Block)
    ensures after { bytes.new ≡ (if nat_lt block (whole_blocks bytes.old) then with_block bytes.old block content.now else bytes.old) }
    ensures apart { BlocksApart }
{
    if block < count_blocks(bytes) {
        let from = BLOCK_BYTES * usize::from(block);
        bytes[from..from + BLOCK_BYTES].copy_from_slice(content);
    }
}
