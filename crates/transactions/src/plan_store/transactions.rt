// Begin, commit and abandon.
ghost use Rattle.transactions.specs.StoreAnswers.{ticketed, store_answer};
ghost use Rattle.transactions.specs.Calls.{Begins, Commits, Abandons};
ghost use Rattle.transactions.specs.Holding.{store_values, Keeps};

use crate::disk_work::put_header;
use crate::phase::Phase;
use crate::plan_store::Store;
use crate::store_refusal::StoreRefusal;
use crate::ticket::Ticket;
use disks::disk::Disk;

impl<D: Disk> Store<D> {
    // Opens a transaction and gives its ticket.
    pub fn begin(&mut self) -> Result<Ticket, StoreRefusal>
        ensures steps { Begins (store_values self.old) (ticketed result) (store_values self.new) }
        ensures keeps { Keeps D.Reader (store_values self.old) (ticketed result) (store_values self.new) }
    {
        self.check_idle()?;
        self.phase = Phase::Open;
        Ok(Ticket::issue())
    }

    // Puts the open writes into the plan, all of them or none.
    pub fn commit(&mut self, ticket: Ticket) -> Result<(), StoreRefusal>
        ensures steps { Commits D.Reader D.Disk.own (store_values self.old) (store_answer result) (store_values self.new) }
        ensures keeps { Keeps D.Reader (store_values self.old) (store_answer result) (store_values self.new) }
    {
        ticket.spend();
        if !self.phase.ticket_out() {
            return Err(StoreRefusal::NoTicket);
        }
        if let Phase::Down { .. } = self.phase {
            self.close();
            return Err(StoreRefusal::StoreDown);
        }
        if self.table.log().len() == self.logged {
            self.close();
            return Ok(());
        }
        let work = put_header(&mut self.disk, &self.table);
        if work.is_ok() {
            self.logged = self.table.log().len();
        }
        self.close();
        self.answer(work)
    }

    // Forgets the open writes.
    pub fn abandon(&mut self, ticket: Ticket) -> Result<(), StoreRefusal>
        ensures steps { Abandons (store_values self.old) (store_answer result) (store_values self.new) }
        ensures keeps { Keeps D.Reader (store_values self.old) (store_answer result) (store_values self.new) }
    {
        ticket.spend();
        if !self.phase.ticket_out() {
            return Err(StoreRefusal::NoTicket);
        }
        self.close();
        Ok(())
    }
}
