// What a header says of the plan and of its log.
ghost use Rattle.std.specs.Prelude.{◌≡◌, ℕ};
ghost use Rattle.std.specs.Option.{unwrap_or};
ghost use Rattle.store.specs.Headers.{header_values};
ghost use Rattle.store.specs.Log.{newest, Newest};

use crate::header::Header;

impl Header {
    pub fn n(&self) -> u16
        ensures { result ≡ (header_values self.now).n }
    {
        self.n
    }

    // The addresses of log slots 1, 2 and so on.
    pub fn log(&self) -> &[u16]
        ensures { result.now ≡ (header_values self.now).log }
    {
        self.log.addresses()
    }

    // The newest log slot that holds the address.
    pub fn slot_of(&self, address: u16) -> Option<u16>
        ensures value { (d : ℕ) → unwrap_or result d ≡ newest 1 (header_values self.now).log address d }
        ensures newest { Newest (header_values self.now).log address result }
    {
        self.log.slot_of(address)
    }
}
