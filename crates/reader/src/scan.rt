// The records of a log, read one after the other behind the header. What is known of those before is kept in tables, as
// specs/Tables.antt says.
ghost use Rattle.std.specs.Prelude.{◌≡◌, [], ◌≤◌, ◌<◌};
ghost use Rattle.record.specs.declared.record.Event.{Event};
ghost use Rattle.reader.specs.Log.{header_length, max_records, leaves, scan};
ghost use Rattle.reader.specs.Readable.{asks};
ghost use Rattle.reader.specs.Feed.{extended};
ghost use Rattle.reader.specs.Tables.{New, Room, Stands, ValueNoted, Admitted, Stepped, Passed, FaultBehind, fault_in, surveyed};

use crate::clients::{ADD_CALL, Clients, NO_CALL, REMOVE_CALL, Standing, code_of};
use crate::format::{HEADER, MAX_RECORDS};
use crate::log::Counts;
use map::map::Map;
use map::narrow::NarrowMap;
use record::record::{Event, Record, decode_at};
use record::refusal::{Refusal, Refused};

// What is kept of the records that were read: their clients and the values that they added; and how far the scan has come: the offset of the next
// record, the last tick, how many records come before those of that tick, and how many operations were called.
#[derive(Drop)]
pub struct Tables {
    pub clients: Clients,
    pub added: Map,
    pub at: usize,
    pub tick: u32,
    pub start: usize,
    pub operations: usize,
}

// What the records of a log come to: how many there are, and the index of the second pending remove, if there is one.
#[derive(Drop)]
pub struct Survey {
    pub counts: Counts,
    pub second_remove: Option<usize>,
}

// The kind of the call that has to be pending when an event comes: for a return that of its operation, for a call none, 0.
fn asks(event: Event) -> u16
    ensures { result ≡ asks event }
{
    match event {
        Event::CallAdd(_) => NO_CALL,
        Event::CallRemove => NO_CALL,
        Event::ReturnAdd => ADD_CALL,
        Event::ReturnRemove(_) => REMOVE_CALL,
    }
}

// The kind of the call that an event leaves pending: for a call that of its operation, for a return none, 0.
fn leaves(event: Event) -> u16
    ensures { result ≡ leaves event }
{
    match event {
        Event::CallAdd(_) => ADD_CALL,
        Event::CallRemove => REMOVE_CALL,
        Event::ReturnAdd => NO_CALL,
        Event::ReturnRemove(_) => NO_CALL,
    }
}

// Notes the value that an event adds, if it is a call of add.
fn note_value(event: Event, added: &mut Map)
    requires { added.old.count < max_records }
    ensures { ValueNoted event added.old added.new }
{
    if let Event::CallAdd(value) = event {
        added.push(value);
    }
}

impl Tables {
    // Nothing has been read.
    fn new() -> Tables
        ensures { New result }
    {
        Tables {
            clients: Clients {
                map: NarrowMap::new(),
                codes: [0; MAX_RECORDS],
            },
            added: Map::new(),
            at: HEADER,
            tick: 0,
            start: 0,
            operations: 0,
        }
    }

    // Finds the client of the record with an index.
    fn standing_of(&self, r: Record, index: usize) -> Standing
        requires { self.now.clients.map.count < max_records }
        ensures { Stands r index self.now result }
    {
        let count = self.clients.map.count;
        let entry = self.clients.map.find(r.client).unwrap_or(count);
        Standing {
            entry,
            code: self.clients.codes[entry],
            start: if r.tick == self.tick {
                self.start
            } else {
                index
            },
        }
    }

    // Refusals 6, 7, 31, 8 and 9: whether anything is wrong with a record behind those that the tables hold. It goes by what the event asks for: the
    // compiler would make a jump table of a match on the four events.
    fn fault(&self, r: Record, s: Standing) -> Result<(), Refusal>
        ensures { result ≡ fault_in r self.now s }
    {
        if r.tick < self.tick {
            return Err(Refusal::TickFell);
        }
        let event = r.event;
        let pending = s.code % 4;
        let kind = asks(event);
        if kind != 0 {
            if pending != kind {
                return Err(Refusal::NoSuchCall);
            }
            return Ok(());
        }
        if pending != 0 {
            return Err(Refusal::ClientBusy);
        }
        if s.start < s.code as usize / 4 {
            return Err(Refusal::TickRepeated);
        }
        match event {
            Event::CallAdd(value) => {
                if self.added.find(value).is_some() {
                    return Err(Refusal::AddedTwice);
                }
                Ok(())
            }
            _ => Ok(()),
        }
    }

    // Notes a record that nothing is wrong with; the next one stands at `next`.
    fn admit(&mut self, r: Record, next: usize, index: usize, s: Standing)
        requires { (index < max_records) × Room self.old × Stands r index self.old s }
        ensures { Admitted r next index self.old self.new }
    {
        let event = r.event;
        let kind = leaves(event);
        note_value(event, &mut self.added);
        self.clients.note(r.client, code_of(index, kind), s.entry);
        self.at = next;
        self.tick = r.tick;
        self.start = s.start;
        self.operations += usize::from(kind != NO_CALL);
    }

    // Reads one record, the one with this index.
    fn read_record(&mut self, log: &[u8], index: usize) -> Result<(), Refusal>
        requires { (index < max_records) × Room self.old }
        ensures { Stepped log.now index self.old result self.new }
    {
        let (record, next) = decode_at(log, self.at)?;
        let s = self.standing_of(record, index);
        self.fault(record, s)?;
        self.admit(record, next, index, s);
        Ok(())
    }

    // Reads the records behind the header, `count` of them, and the end of the log. What is wrong is answered with its index; else what is known of
    // the records is kept in the tables.
    fn read_all(&mut self, log: &[u8], count: usize) -> Result<(), (Refusal, usize)>
        requires { (count ≤ max_records) × New self.old }
        ensures { Passed log.now count result self.new }
    {
        for i in 0..count {
            self.read_record(log, i).map_err(|refusal| (refusal, i))?;
        }
        let at = self.at;
        if at < log.len() {
            return Err((Refusal::WrongBytes, count));
        }
        Ok(())
    }

    // Whether anything is wrong with bytes that are handed in as one record behind those that the tables hold, `index` of them.
    fn fault_behind(&self, bytes: &[u8], index: usize) -> Result<(), Refusal>
        requires { Room self.now }
        ensures { FaultBehind bytes.now index self.now result }
    {
        if bytes.len() == 0 {
            return Err(Refusal::WrongBytes);
        }
        if bytes.len() - 1 != bytes[0] as usize {
            return Err(Refusal::WrongBytes);
        }
        let (record, _) = decode_at(bytes, 0)?;
        let s = self.standing_of(record, index);
        self.fault(record, s)
    }
}

// Reads the records behind the header, and the end of the log.
pub(crate) fn read_records(log: &[u8], count: usize) -> Result<Survey, Refused>
    requires { count ≤ max_records }
    ensures { result ≡ surveyed (scan log.now count header_length []) }
{
    let mut tables = Tables::new();
    tables.read_all(log, count).map_err(|(refusal, index)| Refused {
        number: refusal.number(),
        index,
    })?;
    let counts = Counts {
        records: count,
        operations: tables.operations,
    };
    let Some(first) = tables.clients.earliest_remove(0) else {
        return Ok(Survey {
            counts,
            second_remove: None,
        });
    };
    Ok(Survey {
        counts,
        second_remove: tables.clients.earliest_remove(first + 1),
    })
}

// What bytes come to that are handed in behind the records of a log.
pub(crate) fn extend_records(log: &[u8], count: usize, bytes: &[u8]) -> Result<usize, Refused>
    requires { count ≤ max_records }
    ensures { result ≡ extended (scan log.now count header_length []) bytes.now }
{
    let mut tables = Tables::new();
    let Ok(()) = tables.read_all(log, count) else {
        return Err(Refused::from(Refusal::SessionUnfit));
    };
    if MAX_RECORDS <= count {
        return Err(Refused::from(Refusal::SessionFull));
    }
    tables
        .fault_behind(bytes, count)
        .map_err(|refusal| Refused {
            number: refusal.number(),
            index: count,
        })?;
    Ok(count)
}
