// A reader over read-only bytes, such as a copy of a disk in a file.
ghost use Rattle.std.specs.Prelude.{◌≡◌};
ghost use Rattle.disks.specs.Images.{view_of, Sound, Reads, KeepsMeaning};
ghost use Rattle.disks.specs.ImageLaws.{image_proper, image_reading};

use crate::block::{Block, copy_block, count_blocks};
use crate::lawful_reader::LawfulReader;
use crate::reader::Reader;
use crate::refusal::Refusal;
use crate::state::State;

// Bytes past the last whole block, or past 65,535 blocks, are never touched.
#[derive(Drop)]
pub struct Image<'a> {
    bytes: &'a [u8],
}

impl<'a> Image<'a> {
    // Any bytes make an image.
    #[tactic(auto, using(crate::proofs::Images::image_keeps))]
    pub fn new(bytes: &'a [u8]) -> Image<'a>
        ensures bytes { result.bytes.now ≡ bytes.now }
        ensures sound { Sound result }
        ensures keeps { KeepsMeaning }
    {
        Image { bytes }
    }
}

impl<'a> Reader for Image<'a> {
    ghost view = { view_of };

    ghost sound = { Sound };

    ghost reads = { Reads };

    fn size(&self) -> u16 {
        count_blocks(self.bytes)
    }

    fn height(&self) -> u8 {
        0
    }

    fn state(&self) -> State {
        State::On
    }

    fn read(&mut self, block: u16, place: &mut Block) -> Result<(), Refusal> {
        if block >= count_blocks(self.bytes) {
            return Err(Refusal::PastEnd);
        }
        copy_block(self.bytes, block, place);
        Ok(())
    }
}

impl<'a> LawfulReader for Image<'a> {
    ghost proper = { λ s snd. image_proper s snd };

    ghost reading = { λ s t k x h snd. image_reading s t k x h snd };
}
