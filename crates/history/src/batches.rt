// The positions of records, found as the records of a log are read one after the other: the records of one tick are a batch, in which the calls
// stand before the returns. What is right is said in specs/Positions.antt, what is kept of a batch in specs/Batches.antt.
ghost use Rattle.history.specs.Batches.{Beside, BatchFound, PlaceFound};

use crate::owners::is_call;
use crate::walk::Step;
use record::number::be32;
use record::record::{TICK, decode_at};

// Where a batch ends, how many returns stand before it, and how many calls up to its end.
#[derive(Drop)]
pub struct Batch {
    pub stop: usize,
    pub returns: usize,
    pub calls: usize,
}

// The position of a record, and the batch that is known then: its own or, if it is alone in its tick, one that has ended.
#[derive(Drop)]
pub struct Place {
    pub position: u32,
    pub batch: Batch,
}

// The batch of a step's record: that of the record before it, or a new one. Records are looked at ahead while they have its tick.
fn batch_of(log: &[u8], step: Step, end: usize, before: Batch) -> Batch
    requires { Beside log.now step end before }
    ensures { BatchFound log.now step.index result }
{
    if step.index < before.stop {
        return before;
    }
    let tick = step.record.tick;
    let mut at = step.next;
    let mut stop = step.index + 1;
    let mut calls = step.called + is_call(step.record.event) as usize;
    while stop < end && be32(log, at + TICK) == tick {
        let (record, next) = decode_at(log, at).unwrap();
        calls += is_call(record.event) as usize;
        at = next;
        stop += 1;
    }
    Batch {
        stop,
        returns: step.index - step.called,
        calls,
    }
}

// Finds the position of a step's record. Alone in its tick, a record stands at its index. Of others a call stands behind the calls before it and the
// returns before its batch, a return behind the returns before it and the calls up to the end of its batch.
pub(crate) fn place_of(log: &[u8], step: Step, end: usize, before: Batch) -> Place
    requires { Beside log.now step end before }
    ensures { PlaceFound log.now step.index result }
{
    let index = step.index;
    if before.stop <= index && index + 1 < end && be32(log, step.next + TICK) != step.record.tick {
        return Place {
            position: index as u32,
            batch: before,
        };
    }
    let batch = batch_of(log, step, end, before);
    let position = if is_call(step.record.event) {
        batch.returns + step.called
    } else {
        batch.calls + (index - step.called)
    };
    Place {
        position: position as u32,
        batch,
    }
}
