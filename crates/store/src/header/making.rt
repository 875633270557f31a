// Headers made and changed as records, with no bytes read.
ghost use Rattle.std.specs.Prelude.{◌≡◌, ◌≤◌};
ghost use Rattle.std.specs.Option.{option_map};
ghost use Rattle.store.specs.Headers.{header_values};
ghost use Rattle.store.specs.Layout.{empty, has_room, with_address, cut_to};
ghost use Rattle.store.specs.Looks.{empty_for};

use crate::header::Header;
use crate::header::log::Log;
use crate::look::plan_size;

impl Header {
    // An empty log, for N addresses.
    fn with_plan(n: u16) -> Header
        requires some { 1 ≤ n }
        requires most { n ≤ 4096 }
        ensures { header_values result ≡ empty n }
    {
        Header { n, log: Log::new() }
    }

    // N 1 and an empty log.
    pub fn smallest() -> Header
        ensures { header_values result ≡ empty 1 }
    {
        Header::with_plan(1)
    }

    // An empty log, for a store that takes up `size` blocks.
    pub fn for_size(size: u16) -> Option<Header>
        ensures { option_map header_values result ≡ empty_for size }
    {
        plan_size(size).map(Header::with_plan)
    }

    // Adds the address at the end of the log. It answers whether there was room for it and it is below N; if not, nothing changes.
    pub fn push(&mut self, address: u16) -> bool
        ensures room { result ≡ has_room (header_values self.old) address }
        ensures after { header_values self.new ≡ with_address (header_values self.old) address }
    {
        address < self.n && self.log.push(address)
    }

    // Keeps the first `len` addresses of the log.
    pub fn truncate(&mut self, len: usize)
        ensures { header_values self.new ≡ cut_to len (header_values self.old) }
    {
        self.log.truncate(len);
    }
}
