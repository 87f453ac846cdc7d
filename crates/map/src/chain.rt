// What every map is: a table of keys, of which the first `count` are in use, and chains of those that share a slot, so that a key is found without a
// search through all of them. The heads lead from each slot to its latest entry, the links from each entry to the one before it in its slot: they hold
// the entry's index plus 1, or 0 for none. specs/Map.antt says it whole.
ghost use Rattle.std.specs.Prelude.{ℕ, ◌≡◌, ◌+◌, ◌<◌, true, set};
ghost use Rattle.map.specs.Map.{map_size, Chains, Found};

pub trait Key: Copy + Eq {
    // How many slots there are.
    ghost slots: { ℕ };

    // The slot of a key.
    ghost slot_of: { Self → ℕ };

    // What an entry holds before a key is put into it.
    ghost unused: { Self };

    fn slot(self) -> usize
        ensures { (result ≡ slot_of self) × (result < slots) };

    // Keys that are equal are the same.
    ghost same: { (x y : Self) → Self.eq x y ≡ true → x ≡ y };
}

// The latest entry that holds x.
pub fn find<K: Key>(keys: &[K], heads: &[u16], links: &[u16], count: usize, x: K) -> Option<usize>
    requires { Chains K.unused K.slot_of K.slots keys.now heads.now links.now count }
    ensures { Found K.unused keys.now count x result }
{
    let mut next = heads[x.slot()];
    while 0 < next {
        let i = next as usize - 1;
        if keys[i] == x {
            return Some(i);
        }
        next = links[i];
    }
    None
}

// Puts x after the entries in use.
pub fn push<K: Key>(keys: &mut [K], heads: &mut [u16], links: &mut [u16], count: usize, x: K)
    requires { (count < map_size) × Chains K.unused K.slot_of K.slots keys.old heads.old links.old count }
    ensures { (keys.new ≡ set keys.old count x) × Chains K.unused K.slot_of K.slots keys.new heads.new links.new (count + 1) }
{
    let slot = x.slot();
    links[count] = heads[slot];
    heads[slot] = count as u16 + 1;
    keys[count] = x;
}
