// Narrowing of a log to a list of values: the records of the operations on them and nothing else. What is right is said in
// specs/Outcome.antt.
ghost use Rattle.std.specs.Prelude.{◌≡◌};
ghost use Rattle.reader.specs.Log.{read_log};
ghost use Rattle.projection.specs.Outcome.{narrow_answer, narrow_leaves};

use crate::keep::keep;
use crate::write::write_kept;
use history::operations::{TABLE, tabulate};
use matching::view::History;
use reader::format::MAX_RECORDS;
use record::refusal::Refused;

// Writes the log of all records of operations on these values. Empty removes have none.
pub fn narrow(log: &[u8], values: &[u32], out: &mut [u8]) -> Result<usize, Refused>
    ensures { (result ≡ narrow_answer (read_log log.now) values.now out.old)
        × (out.new ≡ narrow_leaves (read_log log.now) values.now out.old) }
{
    let mut table = [0u32; TABLE];
    let counts = tabulate(log, &mut table)?;
    let mut kept = [false; MAX_RECORDS];
    let h = History {
        table: &table,
        count: counts.operations,
        end: counts.records + 1,
    };
    keep(&h, &[], values, &mut kept);
    write_kept(log, counts.records, &kept, out)
}
