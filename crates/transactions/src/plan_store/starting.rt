// Restart and settle, which bring home what the log holds.
ghost use Rattle.transactions.specs.StoreAnswers.{store_answer};
ghost use Rattle.transactions.specs.Calls.{Restarts, Settles};
ghost use Rattle.transactions.specs.Holding.{store_values, Keeps};

use crate::disk_work::settle_log;
use crate::plan_store::Store;
use crate::recovery::recover;
use crate::store_refusal::StoreRefusal;
use disks::disk::Disk;
use disks::reader::Reader;
use store::look::plan_size;

impl<D: Disk> Store<D> {
    // Brings the store up with the plan that its disk holds.
    pub fn restart(&mut self) -> Result<(), StoreRefusal>
        ensures steps { Restarts D.Reader D.Disk.own (store_values self.old) (store_answer result) (store_values self.new) }
        ensures keeps { Keeps D.Reader (store_values self.old) (store_answer result) (store_values self.new) }
    {
        if self.phase.ticket_out() {
            return Err(StoreRefusal::TicketOut);
        }
        let n = plan_size(self.disk.size()).ok_or(StoreRefusal::UnfitSize)?;
        let recovery = recover(&mut self.disk, n);
        let header = self.answer(recovery)?;
        self.come_up(header);
        Ok(())
    }

    // Brings the logged blocks home, so that the log is empty again.
    pub fn settle(&mut self) -> Result<(), StoreRefusal>
        ensures steps { Settles D.Reader D.Disk.own (store_values self.old) (store_answer result) (store_values self.new) }
        ensures keeps { Keeps D.Reader (store_values self.old) (store_answer result) (store_values self.new) }
    {
        self.check_idle()?;
        let work = settle_log(&mut self.disk, &self.table);
        let header = self.answer(work)?;
        self.come_up(header);
        Ok(())
    }
}
