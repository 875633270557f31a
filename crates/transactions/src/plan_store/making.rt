// The making of a store, and of a plan on its disk.
ghost use Rattle.std.specs.Prelude.{◌≡◌, false, []};
ghost use Rattle.transactions.specs.StoreAnswers.{store_answer};
ghost use Rattle.transactions.specs.Stores.{Down as IsDown, at};
ghost use Rattle.transactions.specs.Calls.{Formats};
ghost use Rattle.transactions.specs.Holding.{store_values, Tied, Keeps};

use crate::phase::Phase;
use crate::plan_store::Store;
use crate::recovery::format_disk;
use crate::store_refusal::StoreRefusal;
use disks::disk::Disk;
use disks::reader::Reader;
use store::header::Header;

impl<D: Disk> Store<D> {
    // A store is made down. Until it is restarted or formatted its N says nothing.
    pub fn new(disk: D) -> Store<D>
        ensures values { store_values result ≡ at disk IsDown false 1 [] [] }
        ensures tied { D.Reader.sound disk → Tied D.Reader (store_values result) }
    {
        let table = Header::smallest();
        let logged = table.log().len();
        Store {
            disk,
            phase: Phase::Down { ticket_out: false },
            table,
            logged,
        }
    }

    // Brings the store up with a plan of zeros.
    pub fn format(&mut self) -> Result<(), StoreRefusal>
        ensures steps { Formats D.Reader D.Disk.own (store_values self.old) (store_answer result) (store_values self.new) }
        ensures keeps { Keeps D.Reader (store_values self.old) (store_answer result) (store_values self.new) }
    {
        if self.phase.ticket_out() {
            return Err(StoreRefusal::TicketOut);
        }
        // Not `ok_or`, as in a restart: with it the proof of the steps did not close.
        let Some(header) = Header::for_size(self.disk.size()) else {
            return Err(StoreRefusal::UnfitSize);
        };
        let work = format_disk(&mut self.disk, &header);
        self.answer(work)?;
        self.come_up(header);
        Ok(())
    }
}
