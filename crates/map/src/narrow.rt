// A map of narrow keys, which have 16 bits. There are as many slots as entries.
ghost use Rattle.std.specs.Prelude.{◌≡◌, ◌+◌, ◌<◌, set};
ghost use Rattle.std.proofs.lemmas.Bool.{eqb-true};
ghost use Rattle.map.specs.Map.{map_size, narrow_slot_of, Chains, Found};

use crate::chain;
use crate::chain::Key;
use table::table::{SIZE, Table};

impl Key for u16 {
    ghost slots = { map_size };

    ghost slot_of = { narrow_slot_of };

    ghost unused = { 0 };

    ghost same = { eqb-true };

    // Of all keys 64 share a slot, and the first 1,024 multiples of any power of two have different ones.
    fn slot(self) -> usize {
        (self as usize + self as usize / SIZE) % SIZE
    }
}

// The first `count` keys are in use.
#[derive(Drop)]
pub struct NarrowMap {
    pub keys: Table,
    pub heads: Table,
    pub links: Table,
    pub count: usize,
    pub ghost linked: { Chains 0 narrow_slot_of map_size keys heads links count },
}

impl NarrowMap {
    pub fn new() -> NarrowMap
        ensures { result.count ≡ 0 }
    {
        NarrowMap {
            keys: [0; SIZE],
            heads: [0; SIZE],
            links: [0; SIZE],
            count: 0,
        }
    }

    // The latest entry that holds x.
    pub fn find(&self, x: u16) -> Option<usize>
        ensures { Found 0 self.now.keys self.now.count x result }
    {
        chain::find(&self.keys, &self.heads, &self.links, self.count, x)
    }

    // Puts x after the entries in use.
    pub fn push(&mut self, x: u16)
        requires { self.old.count < map_size }
        ensures { (self.new.keys ≡ set self.old.keys self.old.count x) × (self.new.count ≡ self.old.count + 1) }
    {
        chain::push(
            &mut self.keys,
            &mut self.heads,
            &mut self.links,
            self.count,
            x,
        );
        self.count += 1;
    }
}
