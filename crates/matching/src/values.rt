// Removes are matched with the adds of their values. specs/Matching.antt says what the table of partners holds.
ghost use Rattle.std.specs.Prelude.{◌≡◌, ◌≤◌, ◌<◌, length};
ghost use Rattle.reader.specs.Log.{max_records};
ghost use Rattle.matching.specs.Matching.{AddsMapped, Cleared, AddedOnce, Noted, Partners};

use history::operations::{ADD, Operations, REMOVE, kind_of, value_of};
use map::map::Map;
use reader::format::MAX_RECORDS;
use table::table::Table;

// A number for each operation.
pub type Numbers = [u32; MAX_RECORDS];

// The adds among the operations: their values are the keys of a map, and the index of each add stands beside its value.
#[derive(Drop)]
pub struct Adds {
    pub values: Map,
    pub indices: Table,
}

impl Adds {
    // Puts in the adds among the first `count` operations.
    fn enter(&mut self, table: &Operations, count: usize)
        requires { (count ≤ max_records) × (self.old.values.count ≡ 0) }
        ensures { AddsMapped table.now count self.new }
    {
        for a in 0..count {
            if kind_of(table, a) == ADD {
                self.indices[self.values.count] = a as u16;
                self.values.push(value_of(table, a));
            }
        }
    }

    // Makes operation r, if it is a remove, and the add of its value partners.
    fn match_value(&self, table: &Operations, count: usize, r: usize, partner: &mut Numbers)
        requires { (count ≤ max_records) × AddsMapped table.now count self.now × (r < count) × (length partner.old ≡ max_records) }
        ensures { Noted table.now count r partner.old partner.new }
    {
        if kind_of(table, r) != REMOVE {
            return;
        }
        if let Some(i) = self.values.find(value_of(table, r)) {
            let a = self.indices[i];
            partner[r] = a as u32 + 1;
            partner[a as usize] = r as u32 + 1;
        }
    }
}

// Fills the table of partners: for a remove a number 1 above the add of its value, for an add 1 above the latest remove of its value, or 0
// where there is none. Its map is gone from the stack when it returns, as it stands by itself.
#[inline(never)]
pub fn match_values(table: &Operations, count: usize, partner: &mut Numbers)
    requires { (count ≤ max_records) × AddedOnce table.now count × Cleared max_records partner.old }
    ensures { Partners table.now count partner.new }
{
    let mut adds = Adds {
        values: Map::new(),
        indices: [0; MAX_RECORDS],
    };
    adds.enter(table, count);
    for r in 0..count {
        adds.match_value(table, count, r, partner);
    }
}
