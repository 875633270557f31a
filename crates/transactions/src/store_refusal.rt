// The answers of a store that are not done.
ghost use Rattle.std.specs.Prelude.{◌≡◌, Some};
ghost use Rattle.store.specs.LookValues.{look_refusal_values};
ghost use Rattle.transactions.specs.StoreAnswers.{store_refusal_values, store_numbered, store_meaning, StoreTellsApart, from_look};
ghost use Rattle.transactions.specs.declared.store_refusal.StoreRefusal.TheVariants.{Disk};

use disks::refusal::Refusal;
use std::fmt;
use store::look_refusal::LookRefusal;

// It names what look refuses too, and does not hold a `LookRefusal`: a caller matches on one kind of answer, with no layer between.
#[derive(Clone, Copy, Debug, PartialEq, Eq)]
pub enum StoreRefusal {
    // 1, 2 or 3: what the disk answered; 1 only of a disk that does not keep the meaning of one.
    Disk(Refusal),
    // 6: the size is below 34 or above 4,129.
    UnfitSize,
    // 7: the header is not well formed, or its N is not the size minus 33.
    NoHeader,
    // 8: the store is down.
    StoreDown,
    // 9: a transaction is open.
    TransactionOpen,
    // 10: no ticket is out at this store.
    NoTicket,
    // 11: a format or a restart with a ticket out.
    TicketOut,
    // 12: the address is at or past N.
    PastPlan,
    // 13: the log is full, and the address is not among the open writes.
    LogFull,
}

impl StoreRefusal {
    // A part of the answer, with a law of its own, and so a method and no `From`.
    pub fn number(&self) -> u8
        ensures value { result ≡ (store_numbered (store_refusal_values self.now)).0 }
        ensures apart { StoreTellsApart }
    {
        match self {
            StoreRefusal::Disk(e) => e.number(),
            StoreRefusal::UnfitSize => 6,
            StoreRefusal::NoHeader => 7,
            StoreRefusal::StoreDown => 8,
            StoreRefusal::TransactionOpen => 9,
            StoreRefusal::NoTicket => 10,
            StoreRefusal::TicketOut => 11,
            StoreRefusal::PastPlan => 12,
            StoreRefusal::LogFull => 13,
        }
    }

    // Its meaning in words.
    pub fn meaning(&self) -> &'static str
        ensures { result.now ≡ store_meaning (store_refusal_values self.now) }
    {
        match self {
            StoreRefusal::Disk(e) => e.meaning(),
            StoreRefusal::UnfitSize => "size below 34 or above 4,129 blocks",
            StoreRefusal::NoHeader => "header not well formed or N not size - 33",
            StoreRefusal::StoreDown => "store is down",
            StoreRefusal::TransactionOpen => "transaction open",
            StoreRefusal::NoTicket => "no ticket out at this store",
            StoreRefusal::TicketOut => "format or restart with a ticket out",
            StoreRefusal::PastPlan => "address at or past N",
            StoreRefusal::LogFull => "log full",
        }
    }
}

impl fmt::Display for StoreRefusal {
    ghost output = { λ e. Some (store_meaning (store_refusal_values e)) };

    fn fmt<W: fmt::Write>(&self, f: &mut fmt::Formatter<W>) -> fmt::Result {
        f.write_str(self.meaning())
    }
}

impl From<Refusal> for StoreRefusal {
    ghost from_gives = { λ e r. r ≡ Disk e };

    fn from(e: Refusal) -> StoreRefusal {
        StoreRefusal::Disk(e)
    }
}

impl From<LookRefusal> for StoreRefusal {
    ghost from_gives = { λ e r. store_refusal_values r ≡ from_look (look_refusal_values e) };

    fn from(e: LookRefusal) -> StoreRefusal {
        match e {
            LookRefusal::Disk(e) => StoreRefusal::Disk(e),
            LookRefusal::UnfitSize => StoreRefusal::UnfitSize,
            LookRefusal::NoHeader => StoreRefusal::NoHeader,
            LookRefusal::PastPlan => StoreRefusal::PastPlan,
        }
    }
}
