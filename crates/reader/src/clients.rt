// The clients met in a log that is being read: the keys of a map, with a code beside each. The code says where the client's latest record stands, and
// what kind of call it leaves pending. specs/Tables.antt says what they hold.
ghost use Rattle.std.specs.Prelude.{◌≡◌, ◌+◌, ◌-◌, ◌*◌, ◌/◌, ◌≤◌, ◌<◌};
ghost use Rattle.reader.specs.Log.{max_records};
ghost use Rattle.reader.specs.Tables.{Noted, Coded, LeastRemove};

use map::narrow::NarrowMap;
use table::table::Table;

// The kinds of a call, and that of none.
pub const NO_CALL: u16 = 0;

pub const ADD_CALL: u16 = 1;

pub const REMOVE_CALL: u16 = 2;

// What is known of the client of a record: its entry, or where a new one goes; its code, 0 if it has not been met; and how many records come before
// those of the record's tick.
#[derive(Clone, Copy)]
pub struct Standing {
    pub entry: usize,
    pub code: u16,
    pub start: usize,
}

// A code is packed into 16 bits, as the reader has to stay under 16 KiB of stack.
#[derive(Drop)]
pub struct Clients {
    pub map: NarrowMap,
    pub codes: Table,
}

// The code of a client whose latest record has this index, and leaves a call of this kind pending.
pub(crate) fn code_of(index: usize, kind: u16) -> u16
    requires { (index < max_records) × (kind < 4) }
    ensures { result ≡ (index + 1) * 4 + kind }
{
    (index as u16 + 1) * 4 + kind
}

// The index that a code holds.
fn index_of(code: u16) -> usize
    requires { 4 ≤ code }
    ensures { result ≡ code / 4 - 1 }
{
    code as usize / 4 - 1
}

impl Clients {
    // Notes the code of a client, whose entry is known.
    pub(crate) fn note(&mut self, client: u16, code: u16, entry: usize)
        requires { (entry < max_records) × (self.old.map.count < max_records) }
        ensures { Noted client code entry self.old self.new }
    {
        self.codes[entry] = code;
        if self.map.count <= entry {
            self.map.push(client);
        }
    }

    // The index of the earliest remove that is pending and was called at index `from` or later.
    pub(crate) fn earliest_remove(&self, from: usize) -> Option<usize>
        requires { Coded self.now.map.count self.now.codes }
        ensures { LeastRemove self.now.codes self.now.map.count from result }
    {
        let mut least = None;
        for &code in &self.codes[..self.map.count] {
            if code % 4 == REMOVE_CALL {
                let index = index_of(code);
                if from <= index {
                    least = Some(least.unwrap_or(index).min(index));
                }
            }
        }
        least
    }
}
