// Memory for a list of differences, got before anything is read, so that a comparison cannot run out of it.
ghost use Rattle.std.specs.Prelude.{◌≡◌, ◌≤◌, [], vec_len, vec_capacity};

use crate::difference::Difference;
use std::alloc::{AllocError, Global};

#[derive(Drop)]
pub struct Room {
    pub(crate) list: Vec<Difference>,
    ghost none: { vec_len list ≡ 0 },
    ghost empty: { list.items ≡ [] },
    ghost enough: { 4096 ≤ vec_capacity list },
}

impl Room {
    // For as many differences as the longest plans can have.
    pub fn new(heap: Global) -> Result<Room, AllocError> {
        let list = Vec::with_capacity(heap, 4096)?;
        Ok(Room { list })
    }
}
