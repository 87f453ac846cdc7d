// A walk along the records of a readable log, from one to the next, which finds the operation of each. What a step tells is said in
// specs/Steps.antt, what the walk keeps in specs/Walks.antt.
ghost use Rattle.std.specs.Prelude.{◌≡◌};
ghost use Rattle.history.specs.Table.{Whole};
ghost use Rattle.history.specs.Walks.{Begun, Walking, Walked};

use crate::owners::owner_of;
use map::map::Map;
use reader::format::HEADER;
use record::record::{Record, decode_at};

// How far a walk has come: the index of the next record and the offset at which it stands, and the callers of the operations before it.
#[derive(Drop)]
pub struct Walk<'a> {
    log: &'a [u8],
    records: usize,
    index: usize,
    at: usize,
    callers: Map,
}

// A record and its index, where the next one stands, how many operations are called before it, and its own operation.
#[derive(Clone, Copy)]
pub struct Step {
    pub record: Record,
    pub index: usize,
    pub next: usize,
    pub called: usize,
    pub operation: usize,
}

impl<'a> Walk<'a> {
    // Begins a walk along a readable log of so many records.
    pub fn new(log: &'a [u8], records: usize) -> Walk<'a>
        requires { Whole log.now records }
        ensures { Begun log.now records result }
    {
        Walk {
            log,
            records,
            index: 0,
            at: HEADER,
            callers: Map::new(),
        }
    }

    // Comes to the next record, if there is one.
    pub fn next(&mut self) -> Option<Step>
        requires { Walking self.old }
        ensures { Walked self.old result self.new }
    {
        if self.records <= self.index {
            return None;
        }
        let (record, next) = decode_at(self.log, self.at).unwrap();
        let called = self.callers.count;
        let operation = owner_of(record, &mut self.callers);
        let index = self.index;
        self.at = next;
        self.index = index + 1;
        Some(Step {
            record,
            index,
            next,
            called,
            operation,
        })
    }
}
