// What a store can do next.
ghost use Rattle.std.specs.Prelude.{◌≡◌};
ghost use Rattle.transactions.specs.Stores.{has_ticket};

#[derive(Clone, Copy, Debug, PartialEq, Eq)]
pub enum Phase {
    // No transaction is open.
    Idle,
    // One is.
    Open,
    // The store has to be restarted or formatted first. A ticket may still be out.
    Down { ticket_out: bool },
}

impl Phase {
    pub(crate) fn ticket_out(self) -> bool
        ensures { result ≡ has_ticket self }
    {
        match self {
            Phase::Idle => false,
            Phase::Open => true,
            Phase::Down { ticket_out } => ticket_out,
        }
    }
}
