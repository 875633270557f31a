// A disk of no use that keeps every rule: it is always dark, and counts the calls that it refuses.
#![tactic(auto)]

ghost use Rattle.std.specs.Prelude.{◌≡◌, refl};
ghost use Rattle.disks.specs.Values.{refusal_values};
ghost use Rattle.disks.specs.Piles.{bottom};
ghost use Rattle.odd.specs.Darkness.{dark_state, dark_view, Sound, refuses, refuses_at, Gives};
ghost use Rattle.odd.specs.Keeping.{dark_proper, at_block, barrier_law, restart_law};

use disks::block::Block;
use disks::cause::{Call, Cause};
use disks::disk::Disk;
use disks::lawful_reader::LawfulReader;
use disks::reader::Reader;
use disks::refusal::Refusal;
use disks::state::State;

#[derive(Drop)]
pub struct AlwaysDark {
    size: u16,
    refused: u64,
}

impl AlwaysDark {
    pub fn new(size: u16) -> AlwaysDark
        ensures fields { result ≡ record { size = size; refused = 0 } }
        ensures sound { Sound result }
    {
        AlwaysDark { size, refused: 0 }
    }

    // As far as the number goes.
    pub fn refused(&self) -> u64
        ensures { result ≡ self.now.refused }
    {
        let AlwaysDark { refused, .. } = self;
        *refused
    }

    fn refuse(&mut self) -> Refusal
        ensures { (refusal_values result, self.new) ≡ refuses self.old }
    {
        self.refused = self.refused.saturating_add(1);
        Refusal::Dark(Cause::from(Call::Restart))
    }

    fn refuse_at(&mut self, block: u16) -> Refusal
        ensures { (refusal_values result, self.new) ≡ refuses_at block self.old }
    {
        let dark = self.refuse();
        if block < self.size {
            dark
        } else {
            Refusal::PastEnd
        }
    }
}

impl Reader for AlwaysDark {
    ghost view = { dark_view };

    ghost sound = { Sound };

    ghost reads = { λ s k x t. Gives x t (refuses_at k s) };

    fn size(&self) -> u16 {
        self.size
    }

    fn height(&self) -> u8 {
        0
    }

    fn state(&self) -> State {
        State::Dark(Cause::from(Call::Restart))
    }

    fn read(&mut self, block: u16, _place: &mut Block) -> Result<(), Refusal> {
        Err(self.refuse_at(block))
    }
}

impl LawfulReader for AlwaysDark {
    ghost proper = { λ s snd. dark_proper s snd };

    ghost reading = { λ s t k x h snd. at_block s t snd k _ x _ h };
}

impl Disk for AlwaysDark {
    ghost writes = { λ s k b r t. Gives r t (refuses_at k s) };

    ghost barriers = { λ s r t. Gives r t (refuses s) };

    ghost restarts = { λ s r t. Gives r t (refuses s) };

    ghost bottoms = { λ s. bottom dark_state };

    ghost writing = { λ s t k b r whole h snd. at_block s t snd k _ r _ h };

    ghost flushing = { λ s t r h snd. barrier_law s t snd r h };

    ghost restarting = { λ s t r h snd. restart_law s t snd r h };

    ghost losing = { λ s snd. refl };

    fn write(&mut self, block: u16, _content: &Block) -> Result<(), Refusal> {
        Err(self.refuse_at(block))
    }

    fn barrier(&mut self) -> Result<(), Refusal> {
        Err(self.refuse())
    }

    fn restart(&mut self) -> Result<(), Refusal> {
        Err(self.refuse())
    }
}
