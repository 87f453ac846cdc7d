// A map of keys of 32 bits.
ghost use Rattle.std.specs.Prelude.{◌≡◌, ◌+◌, ◌<◌, set};
ghost use Rattle.std.proofs.lemmas.Bool.{eqb-true};
ghost use Rattle.map.specs.Map.{slot_count, map_size, map_slot_of, Chains, Found};

use crate::chain;
use crate::chain::Key;

// As many entries as a log may have records.
pub const KEYS: usize = 1024;

pub const SLOTS: usize = 512;

// A prime near 2^32 divided by the golden ratio.
const FACTOR: u64 = 2654435761;

// 2^23: the slot is the nine bits above.
const CUT: u64 = 8388608;

impl Key for u32 {
    ghost slots = { slot_count };

    ghost slot_of = { map_slot_of };

    ghost unused = { 0 };

    ghost same = { eqb-true };

    // Bits 23 to 31 of the product with the factor, in which keys that are close to each other differ.
    fn slot(self) -> usize {
        (self as u64 * FACTOR / CUT) as usize % SLOTS
    }
}

// The first `count` keys are in use.
#[derive(Drop)]
pub struct Map {
    pub keys: [u32; KEYS],
    pub heads: [u16; SLOTS],
    pub links: [u16; KEYS],
    pub count: usize,
    pub ghost linked: { Chains 0 map_slot_of slot_count keys heads links count },
}

impl Map {
    pub fn new() -> Map
        ensures { result.count ≡ 0 }
    {
        Map {
            keys: [0; KEYS],
            heads: [0; SLOTS],
            links: [0; KEYS],
            count: 0,
        }
    }

    // The latest entry that holds x.
    pub fn find(&self, x: u32) -> Option<usize>
        ensures { Found 0 self.now.keys self.now.count x result }
    {
        chain::find(&self.keys, &self.heads, &self.links, self.count, x)
    }

    // Puts x after the entries in use.
    pub fn push(&mut self, x: u32)
        requires { self.old.count < map_size }
        ensures { (self.new.keys ≡ set self.old.keys self.old.count x) × (self.new.count ≡ self.old.count + 1) }
    {
        chain::push(
            &mut self.keys,
            &mut self.heads,
            &mut self.links,
            self.count,
            x,
        );
        self.count += 1;
    }
}
