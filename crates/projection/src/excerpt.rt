// The excerpt of a log: the records of the operations on the values of those that the first pattern lists, and of a listed empty remove. What
// is right is said in specs/Outcome.antt, what the code keeps in specs/Listed.antt.
ghost use Rattle.std.specs.Prelude.{◌≡◌, ◌+◌, ◌<◌};
ghost use Rattle.reader.specs.Log.{max_records, read_log};
ghost use Rattle.history.specs.History.{RemovesReturned};
ghost use Rattle.history.specs.Table.{tabled, TableOf};
ghost use Rattle.projection.specs.Projection.{values_of};
ghost use Rattle.projection.specs.Outcome.{excerpt_answer, excerpt_leaves};
ghost use Rattle.projection.specs.Marks.{entries_of, KeptAre};
ghost use Rattle.projection.specs.Listed.{Listable, ValueAdded, ValuesAre};

use crate::keep::{Marks, keep};
use crate::write::write_kept;
use fates::fates::pending_remove;
use history::operations::{EMPTY_REMOVE, NO_KIND, Operations, TABLE, kind_of, tabulate, value_of};
use judge::decide::{Judged, decide_complete};
use matching::values::Numbers;
use matching::view::History;
use reader::format::MAX_RECORDS;
use record::refusal::{Refusal, Refused};

// Puts the value of an operation behind those of a table; what has no kind has no value, nor has an empty remove. Answers
// how many values there are then.
fn add_value(table: &Operations, o: usize, count: usize, values: &mut Numbers) -> usize
    requires { (o < max_records) × (count < max_records) }
    ensures { ValueAdded table.now o count values.old result values.new }
{
    let kind = kind_of(table, o);
    if kind == NO_KIND {
        return count;
    }
    if kind == EMPTY_REMOVE {
        return count;
    }
    values[count] = value_of(table, o);
    count + 1
}

// Collects the values of the listed operations. Answers how many there are.
fn collect(table: &Operations, listed: &[u32], values: &mut Numbers) -> usize
    requires { Listable listed.now }
    ensures { ValuesAre table.now listed.now result values.new }
{
    let mut count = 0;
    for &o in listed {
        count = add_value(table, o as usize, count, values);
    }
    count
}

// Notes for each operation of the table whether the excerpt of a pattern that lists these keeps it.
fn keep_listed(h: &History, listed: &[u32], kept: &mut Marks)
    requires { Listable listed.now }
    ensures { KeptAre h.now.table.now h.now.count listed.now (values_of (entries_of h.now.table.now) listed.now) kept.new }
{
    let mut values = [0u32; MAX_RECORDS];
    let n = collect(h.table, listed, &mut values);
    keep(h, listed, &values[..n], kept);
}

// Writes the excerpt of a readable log in which every remove has returned, and whose operations the table holds.
fn write_excerpt(
    log: &[u8],
    records: usize,
    table: &Operations,
    count: usize,
    out: &mut [u8],
) -> Result<usize, Refused>
    requires { TableOf log.now records count table.now × RemovesReturned (tabled count (records + 1) table.now) }
    ensures { (result ≡ excerpt_answer (read_log log.now) out.old) × (out.new ≡ excerpt_leaves (read_log log.now) out.old) }
{
    let mut partner = [0u32; MAX_RECORDS];
    let mut list = [0u32; MAX_RECORDS];
    let h = History {
        table,
        count,
        end: records + 1,
    };
    let Judged::Pattern(found) = decide_complete(&h, &mut partner, &mut list) else {
        return Err(Refused::from(Refusal::NoPattern));
    };
    let mut kept = [false; MAX_RECORDS];
    keep_listed(&h, &list[..found.listed], &mut kept);
    write_kept(log, records, &kept, out)
}

// Writes the excerpt of a log: that of its first pattern.
pub fn excerpt(log: &[u8], out: &mut [u8]) -> Result<usize, Refused>
    ensures { (result ≡ excerpt_answer (read_log log.now) out.old) × (out.new ≡ excerpt_leaves (read_log log.now) out.old) }
{
    let mut table = [0u32; TABLE];
    let counts = tabulate(log, &mut table)?;
    if pending_remove(&table, counts.operations).is_some() {
        return Err(Refused::from(Refusal::RemoveUnreturned));
    }
    write_excerpt(log, counts.records, &table, counts.operations, out)
}
