// A store: one disk, and what is known of the log on it.
ghost use Rattle.std.specs.Prelude.{◌≡◌, ◌≤◌, false, length};
ghost use Rattle.store.specs.Headers.{header_values};
ghost use Rattle.transactions.specs.Stores.{has_ticket};

use crate::phase::Phase;
use store::header::Header;

mod blocks;
mod common;
mod making;
mod starting;
mod transactions;

// What ties it to its disk is a clause of each call and no ghost field: the disk may be one that is not sound, and a call may make that sound.
#[derive(Drop)]
pub struct Store<D> {
    disk: D,
    phase: Phase,
    // N, and the addresses of the slots in use: first the logged ones, then those of the open writes.
    table: Header,
    // How many addresses of the table are logged.
    logged: usize,
    ghost within: { logged ≤ length (header_values table).log },
    ghost closed: { has_ticket phase ≡ false → logged ≡ length (header_values table).log },
}
