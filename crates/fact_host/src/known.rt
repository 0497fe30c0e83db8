//! What a host knows between two outside calls of an adapter.

ghost use Rattle.std.specs.Prelude.{◌≡◌};
ghost use Rattle.fact_host.specs.Rules.{cursor_of, raised};

use crate::allocator::Region;
use fact_wasm::Seq;

/// What a host knows between two outside calls.
#[derive(Drop)]
pub struct Known {
    /// Where the free part of each memory begins, in bytes.
    pub cursors: Seq<u64>,
    /// The regions that realloc gave in the transfer under way, and that are in use, the newest first.
    pub live: Seq<Region>,
    /// Whether the callee was called, so that results are moved and no longer parameters.
    pub returned: bool,
    /// How many handles were moved.
    pub transfers: u32,
}

impl Known {
    /// Where the free part of the nth memory begins, 0 where there is no such memory.
    pub fn cursor_of(&self, memory: u32) -> u64
        ensures { result ≡ cursor_of self.now memory }
    {
        match self.cursors.get(memory as usize) {
            Some(cursor) => *cursor,
            None => 0,
        }
    }

    /// The free part of the nth memory, if there is one, begins elsewhere from now on.
    pub fn raise(&mut self, memory: u32, cursor: u64)
        ensures { self.new ≡ raised self.old memory cursor }
    {
        let place = memory as usize;
        if place < self.cursors.len() {
            let _old = self.cursors.set(place, cursor);
        }
    }
}
