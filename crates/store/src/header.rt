// The header record of block 0: how many addresses the plan has, and which of them the log holds.
ghost use Rattle.store.specs.Layout.{InRange};
ghost use Rattle.store.specs.LogValues.{log_of};

mod codec;
mod log;
mod making;
mod reading;

use log::Log;

#[derive(Clone, Copy)]
pub struct Header {
    // N: addresses run from 0 to N - 1.
    n: u16,
    log: Log,
    ghost in_range: { InRange (record { n = n; log = log_of log }) },
}
