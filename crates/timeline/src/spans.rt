// Where the operations of a short log begin and end. What the code keeps is said in specs/Spans.antt.
ghost use Rattle.std.specs.Prelude.{◌≡◌, ◌≤◌, ◌<◌, length};
ghost use Rattle.history.specs.Table.{Whole};
ghost use Rattle.timeline.specs.Page.{page_records};
ghost use Rattle.timeline.specs.Spans.{SpanNoted, SpansAre};

use history::owners::is_call;
use history::walk::{Step, Walk};

// The most records of a log that has a page.
pub const PAGE_RECORDS: usize = 63;

// An index for each operation of such a log.
pub type ByOperation = [usize; PAGE_RECORDS];

// Notes the record of a step. A call begins the span of its operation, which runs to the last record unless a return ends it.
fn note_span(step: Step, records: usize, starts: &mut ByOperation, ends: &mut ByOperation)
    requires { (step.operation < page_records) × (step.index < page_records) }
    ensures { SpanNoted step records starts.old ends.old starts.new ends.new }
{
    let o = step.operation;
    let index = step.index;
    if is_call(step.record.event) {
        starts[o] = index;
        ends[o] = records;
    } else {
        ends[o] = index + 1;
    }
}

// Finds where the span of each operation of a readable log begins and ends.
pub(crate) fn span(log: &[u8], records: usize, starts: &mut ByOperation, ends: &mut ByOperation)
    requires { Whole log.now records × (records ≤ page_records)
        × (length starts.old ≡ page_records) × (length ends.old ≡ page_records) }
    ensures { SpansAre log.now starts.new ends.new }
{
    let mut walk = Walk::new(log, records);
    while let Some(step) = walk.next() {
        note_span(step, records, starts, ends);
    }
}
