// The table of operations is filled from the records of a readable log, one after the other.
ghost use Rattle.std.specs.Prelude.{◌≡◌, ◌<◌, length};
ghost use Rattle.reader.specs.Log.{max_records, read_log};
ghost use Rattle.history.specs.Table.{table_length, Tabulated, Entered, Room, Noted, Whole};

use crate::batches::{Batch, place_of};
use crate::operations::{
    ADD, CALL, EMPTY_REMOVE, FIELDS, KIND, NO_KIND, Operations, REMOVE, RETURN, VALUE, call_of,
    value_of,
};
use crate::walk::{Step, Walk};
use record::record::{Event, Removed};

// Writes the entry of an operation.
pub fn enter(table: &mut Operations, o: usize, kind: u32, value: u32, call: u32, returned: u32)
    requires { (o < max_records) × (length table.old ≡ table_length) }
    ensures { Entered table.old o kind value call returned table.new }
{
    let at = o * FIELDS;
    table[at + KIND] = kind;
    table[at + VALUE] = value;
    table[at + CALL] = call;
    table[at + RETURN] = returned;
}

// Notes the record of a step, which stands at a position: a call's operation is entered as returning at the end until its return is read.
fn note(step: Step, at: u32, end: usize, table: &mut Operations)
    requires { Room step end table.old }
    ensures { Noted step at end table.old table.new }
{
    let o = step.operation;
    let event = step.record.event;
    match event {
        Event::CallAdd(value) => enter(table, o, ADD, value, at, end as u32),
        Event::CallRemove => enter(table, o, NO_KIND, 0, at, end as u32),
        Event::ReturnAdd => {
            let value = value_of(table, o);
            let call = call_of(table, o);
            enter(table, o, ADD, value, call, at);
        }
        Event::ReturnRemove(Removed::Value(value)) => {
            let call = call_of(table, o);
            enter(table, o, REMOVE, value, call, at);
        }
        Event::ReturnRemove(Removed::Empty) => {
            let call = call_of(table, o);
            enter(table, o, EMPTY_REMOVE, 0, call, at);
        }
    }
}

// Fills the table from the records of a readable log.
pub(crate) fn fill(log: &[u8], records: usize, table: &mut Operations)
    requires { Whole log.now records × (length table.old ≡ table_length) }
    ensures { Tabulated (read_log log.now) table.old table.new }
{
    let mut walk = Walk::new(log, records);
    let mut batch = Batch {
        stop: 0,
        returns: 0,
        calls: 0,
    };
    while let Some(step) = walk.next() {
        let place = place_of(log, step, records, batch);
        note(step, place.position, records + 1, table);
        batch = place.batch;
    }
}
