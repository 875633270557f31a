// The right to write in a store's open transaction.

// It cannot be made or taken apart elsewhere, copied, or let go: it ends in a commit or an abandon. It bears no store's name.
pub struct Ticket {
    seal: (),
}

impl Ticket {
    pub(crate) fn issue() -> Ticket {
        Ticket { seal: () }
    }

    pub(crate) fn spend(self) {
        let Ticket { seal: () } = self;
    }
}
