// The log of a header: the addresses of the log slots 1, 2 and so on.
ghost use Rattle.std.specs.Prelude.{◌≡◌, ℕ, ◌≤◌, [], length, take, nat_lt};
ghost use Rattle.std.specs.List.{list_all};
ghost use Rattle.std.specs.Option.{option_map, unwrap_or};
ghost use Rattle.store.specs.Layout.{filled, added, log_in};
ghost use Rattle.store.specs.Log.{newest, Newest};
ghost use Rattle.store.specs.LogFields.{KeepsFields};

// A header has 32 address fields. They stay in memory as they stand in its block, so that a log needs no heap.
#[derive(Clone, Copy)]
pub(super) struct Log {
    // How many log slots are in use.
    count: usize,
    // The addresses of these slots, then zeros.
    fields: [u16; 32],
    ghost keeps: { KeepsFields count fields },
}

impl Log {
    ghost use Rattle.store.specs.LogValues.{log_of};

    pub(super) fn new() -> Log
        ensures { log_of result ≡ [] }
    {
        Log {
            count: 0,
            fields: [0; 32],
        }
    }

    // The log of which the first `count` fields are in use, if there are so many and the others are zero.
    pub(super) fn from_fields(count: usize, fields: [u16; 32]) -> Option<Log>
        ensures { option_map log_of result ≡ log_in count fields }
    {
        if count > 32 || !holds_only(&fields[count..], &0) {
            return None;
        }
        Some(Log { count, fields })
    }

    pub(super) fn fields(&self) -> &[u16; 32]
        ensures { result.now ≡ filled (log_of self.now) }
    {
        &self.fields
    }

    pub(super) fn addresses(&self) -> &[u16]
        ensures value { result.now ≡ log_of self.now }
        ensures few { length (log_of self.now) ≤ 32 }
    {
        &self.fields[..self.count]
    }

    // Adds the address at the end. It answers whether there was room for it.
    pub(super) fn push(&mut self, address: u16) -> bool
        ensures room { result ≡ nat_lt (length (log_of self.old)) 32 }
        ensures after { log_of self.new ≡ added (log_of self.old) address }
    {
        if self.count >= 32 {
            return false;
        }
        self.fields[self.count] = address;
        self.count += 1;
        true
    }

    // Keeps the first `len` addresses.
    pub(super) fn truncate(&mut self, len: usize)
        ensures { log_of self.new ≡ take len (log_of self.old) }
    {
        if len < self.count {
            self.fields[len..].fill(0);
            self.count = len;
        }
    }

    // The newest slot that holds the address. Slots count from 1, so a log's last address stands in the slot of its length.
    pub(super) fn slot_of(&self, address: u16) -> Option<u16>
        ensures value { (d : ℕ) → unwrap_or result d ≡ newest 1 (log_of self.now) address d }
        ensures newest { Newest (log_of self.now) address result }
    {
        // At most 32, so that the length of what is left is no wider than a slot's number.
        let mut log = self.addresses();
        loop {
            match log {
                [] => break None,
                [.., last] if *last == address => break Some(log.len() as u16),
                [older @ .., _] => log = older,
            }
        }
    }
}

// Whether each item is x.
pub(super) fn holds_only<T: PartialEq>(items: &[T], x: &T) -> bool
    ensures { result ≡ list_all (λ y. T.eq y x.now) items.now }
{
    items.iter().all(|y| y == x)
}
