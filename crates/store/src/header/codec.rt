// The header as the bytes of a block, and back.
ghost use Rattle.std.specs.Prelude.{◌≡◌, ℕ, ◌<◌, Some, slice_index};
ghost use Rattle.std.specs.Option.{option_map};
ghost use Rattle.store.specs.Headers.{header_values};
ghost use Rattle.store.specs.Layout.{packed, unpacked, pairs, fields, fields_in, all_below, PackedExamples, UnpackedExamples, OnlyPacking};
ghost use Rattle.store.specs.Bits.{bits, layout_bits, WellFormedExactly};

use crate::header::Header;
use crate::header::log::{Log, holds_only};
use disks::block::{BLOCK_BYTES, Block};

// The mark in the first two bytes tells a store's header from other blocks.
const MARK: [u8; 2] = [0xB1, 0x0C];

// Layout 1, above the 12 bits of N - 1.
const LAYOUT: u16 = 0x1000;

impl Header {
    pub fn pack(&self) -> Block
        ensures value { result ≡ packed (header_values self.now) }
        ensures back { unpacked result ≡ Some (header_values self.now) }
        ensures layout { bits result ≡ layout_bits (header_values self.now) }
        ensures examples { PackedExamples }
    {
        let mut out = [0u8; BLOCK_BYTES];
        out[..2].copy_from_slice(&MARK);
        out[2..4].copy_from_slice(&(LAYOUT + (self.n - 1)).to_be_bytes());
        // At most 32.
        out[4] = self.log.addresses().len() as u8 * 4;
        let (pairs, _) = self.log.fields().as_chunks::<2>();
        // By their places, here and in `read_fields`: of what a zip with `iter_mut` writes a proof learns nothing.
        for (g, pair) in pairs.iter().enumerate() {
            out[5 + 3 * g..8 + 3 * g].copy_from_slice(&pack_pair(pair));
        }
        out
    }

    pub fn unpack(bytes: &Block) -> Option<Header>
        ensures value { option_map header_values result ≡ unpacked bytes.now }
        ensures only { OnlyPacking bytes.now }
        ensures exactly { WellFormedExactly bytes.now }
        ensures examples { UnpackedExamples }
    {
        let layout = u16::from_be_bytes([bytes[2], bytes[3]]);
        let n = layout % LAYOUT + 1;
        let log = Log::from_fields(usize::from(bytes[4] / 4), read_fields(bytes))?;
        if !bytes.starts_with(&MARK)
            || layout / LAYOUT != 1
            || bytes[4] % 4 != 0
            || !is_below(n, log.addresses())
            || !holds_only(&bytes[53..], &0)
        {
            return None;
        }
        Some(Header { n, log })
    }
}

// The 32 fields of 12 bits that begin at byte 5.
fn read_fields(bytes: &Block) -> [u16; 32]
    ensures { result ≡ fields_in bytes.now }
{
    let mut out = [0u16; 32];
    let (triples, _) = bytes[5..53].as_chunks::<3>();
    for (g, triple) in triples.iter().enumerate() {
        out[2 * g..2 * g + 2].copy_from_slice(&unpack_pair(triple));
    }
    out
}

// Two fields of 12 bits in three bytes.
fn pack_pair(pair: &[u16; 2]) -> [u8; 3]
    requires { (i : ℕ) → slice_index pair.now i < 4096 }
    ensures { result ≡ pairs pair.now }
{
    let [a, b] = *pair;
    let [high, low] = (a * 16).to_be_bytes();
    let [top, rest] = b.to_be_bytes();
    [high, low + top, rest]
}

fn unpack_pair(triple: &[u8; 3]) -> [u16; 2]
    ensures { result ≡ fields triple.now }
{
    let [x, y, z] = *triple;
    [
        u16::from_be_bytes([x, y]) / 16,
        u16::from_be_bytes([y, z]) % 4096,
    ]
}

fn is_below(n: u16, addresses: &[u16]) -> bool
    ensures { result ≡ all_below n addresses.now }
{
    addresses.iter().all(|a| *a < n)
}
