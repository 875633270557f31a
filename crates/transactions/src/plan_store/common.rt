// What the calls of a store have in common.
ghost use Rattle.std.specs.Prelude.{◌≡◌, false, [], Ok as Done, MatchResult, IsErrAnd};
ghost use Rattle.store.specs.Headers.{header_values};
ghost use Rattle.transactions.specs.Stores.{Idle as IsIdle, at, first, begin_checks, read_checks};
ghost use Rattle.transactions.specs.StoreAnswers.{store_refusal_values};
ghost use Rattle.transactions.specs.Calls.{after as after_work, closed as closed_phase};
ghost use Rattle.transactions.specs.Holding.{store_values};

use crate::phase::Phase;
use crate::plan_store::Store;
use crate::store_refusal::StoreRefusal;
use store::header::Header;

impl<D> Store<D> {
    // The store is up, and no transaction is open.
    pub(crate) fn check_idle(&self) -> Result<(), StoreRefusal>
        ensures { MatchResult result (λ _. first (begin_checks (store_values self.now)) ≡ None) (λ e. first (begin_checks (store_values self.now)) ≡ Some (store_refusal_values e)) }
    {
        match self.phase {
            Phase::Idle => Ok(()),
            Phase::Open => Err(StoreRefusal::TransactionOpen),
            Phase::Down { .. } => Err(StoreRefusal::StoreDown),
        }
    }

    // The store is up, and its plan has the address.
    pub(crate) fn check_address(&self, address: u16) -> Result<(), StoreRefusal>
        ensures { MatchResult result (λ _. first (read_checks (store_values self.now) address) ≡ None) (λ e. first (read_checks (store_values self.now) address) ≡ Some (store_refusal_values e)) }
    {
        if let Phase::Down { .. } = self.phase {
            return Err(StoreRefusal::StoreDown);
        }
        if address >= self.table.n() {
            return Err(StoreRefusal::PastPlan);
        }
        Ok(())
    }

    // A refusal met in the disk's work is the store's answer, and leaves the store down.
    pub(crate) fn answer<T, E: Into<StoreRefusal>>(
        &mut self,
        work: Result<T, E>,
    ) -> Result<T, StoreRefusal>
        ensures answer { MatchResult work (λ x. result ≡ Done x) (λ e. IsErrAnd result (E.converts e)) }
        ensures after { store_values self.new ≡ after_work work (store_values self.old) }
    {
        match work {
            Ok(x) => Ok(x),
            Err(e) => {
                let ticket_out = self.phase.ticket_out();
                self.phase = Phase::Down { ticket_out };
                Err(e.into())
            }
        }
    }

    // Ends the transaction, if one is open: the open writes are forgotten.
    pub(crate) fn close(&mut self)
        ensures { store_values self.new ≡ at self.old.disk (closed_phase (store_values self.old).phase) false (store_values self.old).n (store_values self.old).logged [] }
    {
        self.table.truncate(self.logged);
        self.phase = match self.phase {
            Phase::Idle | Phase::Open => Phase::Idle,
            Phase::Down { .. } => Phase::Down { ticket_out: false },
        };
    }

    // The store is up with this header, all of whose log is logged.
    pub(crate) fn come_up(&mut self, header: Header)
        requires { (store_values self.old).out ≡ false }
        ensures { store_values self.new ≡ at self.old.disk IsIdle false (header_values header).n (header_values header).log [] }
    {
        self.table = header;
        self.logged = self.table.log().len();
        self.phase = Phase::Idle;
    }
}
