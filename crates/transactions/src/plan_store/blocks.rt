// Write and read.
ghost use Rattle.std.specs.Prelude.{◌≡◌, true};
ghost use Rattle.disks.specs.Meaning.{Untouched};
ghost use Rattle.transactions.specs.StoreAnswers.{store_answer, store_shown};
ghost use Rattle.transactions.specs.Calls.{Writes, Reads};
ghost use Rattle.transactions.specs.Holding.{store_values, Keeps};
ghost use Rattle.transactions.specs.Examples.{WriteExamples};
ghost use Rattle.transactions.specs.Slots.{open_slot, Notes};

use crate::plan_store::Store;
use crate::store_refusal::StoreRefusal;
use crate::ticket::Ticket;
use disks::block::Block;
use disks::disk::Disk;
use store::look::FIRST_HOME;

impl<D: Disk> Store<D> {
    // Writes the content to the address in the open transaction. No committed slot is touched, so that the plan stands until the commit.
    pub fn write(
        &mut self,
        _ticket: &Ticket,
        address: u16,
        content: &Block,
    ) -> Result<(), StoreRefusal>
        ensures steps { Writes D.Reader D.Disk.own (store_values self.old) address content.now (store_answer result) (store_values self.new) }
        ensures keeps { Keeps D.Reader (store_values self.old) (store_answer result) (store_values self.new) }
        ensures examples { WriteExamples D }
    {
        if !self.phase.ticket_out() {
            return Err(StoreRefusal::NoTicket);
        }
        self.check_address(address)?;
        let block = self.note(address).ok_or(StoreRefusal::LogFull)?;
        let work = self.disk.write(block, content);
        self.answer(work)
    }

    // Puts into the place the block at the address, as the open transaction has it.
    pub fn read(&mut self, address: u16, place: &mut Block) -> Result<(), StoreRefusal>
        ensures steps { Reads D.Reader D.Disk.own (store_values self.old) address (store_shown result place.new) (store_values self.new) }
        ensures place { Untouched result place.old place.new }
        ensures keeps { Keeps D.Reader (store_values self.old) (store_shown result place.new) (store_values self.new) }
    {
        self.check_address(address)?;
        let block = self.table.slot_of(address).unwrap_or(FIRST_HOME + address);
        let work = self.disk.read(block, place);
        self.answer(work)
    }

    // Notes the address among the open writes, and gives the block for it; none where the log is full.
    fn note(&mut self, address: u16) -> Option<u16>
        requires { (store_values self.old).out ≡ true }
        ensures { Notes (store_values self.old) address result (store_values self.new) }
    {
        // Not `or_else`: the proof learns nothing of what its closure changes in the table.
        if let Some(block) = self.open_slot(address) {
            return Some(block);
        }
        // A log has at most 32 addresses, so its length is no wider than a block's number.
        let added = self.table.push(address);
        added.then(|| self.table.log().len() as u16)
    }

    // The slot of an open write to the address.
    fn open_slot(&self, address: u16) -> Option<u16>
        ensures { result ≡ open_slot (store_values self.now) address }
    {
        self.table
            .slot_of(address)
            .filter(|slot| usize::from(*slot) > self.logged)
    }
}
