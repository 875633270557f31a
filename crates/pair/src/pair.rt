// A pair of two disks of any make, as a disk.
ghost use Rattle.pair.specs.Sides.{view_of, Sound, bottoms_of};
ghost use Rattle.pair.specs.Calls.{Reads, Writes, Barriers};
ghost use Rattle.pair.specs.Restarts.{Restarts};
ghost use Rattle.pair.specs.Causes.{pair_proper, pair_losing};
ghost use Rattle.pair.specs.Writing.{pair_writing, pair_flushing};
ghost use Rattle.pair.specs.Restarting.{pair_restarting};
ghost use Rattle.pair.specs.Reading.{pair_reading};

use disks::block::Block;
use disks::disk::Disk;
use disks::lawful_reader::LawfulReader;
use disks::reader::Reader;
use disks::refusal::Refusal;
use disks::state::State;

mod calls;
mod making;
mod restart;
mod state;

#[derive(Drop)]
pub struct Pair<A, B> {
    side0: A,
    side1: B,
    // Whether a restart has been done: until then the sides may differ. They are there either way, so no Option holds them.
    joined: bool,
}

impl<A: LawfulReader, B: LawfulReader> Reader for Pair<A, B> {
    ghost view = { view_of A.Reader B.Reader };

    ghost sound = { Sound A.Reader B.Reader };

    ghost reads = { Reads A.Reader B.Reader };

    fn size(&self) -> u16 {
        self.side0.size()
    }

    fn height(&self) -> u8 {
        self.side0.height().max(self.side1.height()).min(7) + 1
    }

    fn state(&self) -> State {
        self.state_if(self.joined)
    }

    fn read(&mut self, block: u16, place: &mut Block) -> Result<(), Refusal> {
        if block >= self.size() {
            return Err(Refusal::PastEnd);
        }
        self.state().answer()?;
        self.read_living(block, place)
    }
}

impl<A: LawfulReader, B: LawfulReader> LawfulReader for Pair<A, B> {
    ghost proper = { pair_proper A.Reader.own B.Reader.own A.LawfulReader.proper B.LawfulReader.proper };

    ghost reading = { pair_reading A.Reader.own B.Reader.own A.LawfulReader.reading B.LawfulReader.reading };
}

impl<A: Disk, B: Disk> Disk for Pair<A, B> {
    ghost writes = { Writes A.Reader A.Disk.own B.Reader B.Disk.own };

    ghost barriers = { Barriers A.Reader A.Disk.own B.Reader B.Disk.own };

    ghost restarts = { Restarts A.Reader A.Disk.own B.Reader B.Disk.own };

    ghost bottoms = { bottoms_of A.Disk.own B.Disk.own };

    ghost writing = { pair_writing A.Reader.own A.Disk.own B.Reader.own B.Disk.own A.Disk.writing B.Disk.writing };

    ghost flushing = { pair_flushing A.Reader.own A.Disk.own B.Reader.own B.Disk.own A.Disk.flushing B.Disk.flushing };

    ghost restarting = { pair_restarting A.Reader.own A.Disk.own B.Reader.own B.Disk.own A.LawfulReader.proper A.LawfulReader.reading B.Disk.writing B.Disk.flushing A.Disk.restarting B.Disk.restarting };

    ghost losing = { pair_losing A.Reader.own A.Disk.own B.Reader.own B.Disk.own A.Disk.losing B.Disk.losing };

    fn write(&mut self, block: u16, content: &Block) -> Result<(), Refusal> {
        if block >= self.size() {
            return Err(Refusal::PastEnd);
        }
        self.in_turn(
            |side0| side0.write(block, content),
            |side1| side1.write(block, content),
        )
    }

    fn barrier(&mut self) -> Result<(), Refusal> {
        self.in_turn(|side0| side0.barrier(), |side1| side1.barrier())
    }

    // The sides' states say all: whether the copy is complete, and with it whether the pair is joined.
    fn restart(&mut self) -> Result<(), Refusal> {
        if let State::Dead(cause) = self.state() {
            return Err(Refusal::Lost(cause));
        }
        self.restart_sides();
        let after = self.state_if(true);
        self.joined |= matches!(after, State::On);
        after.answer()
    }
}
