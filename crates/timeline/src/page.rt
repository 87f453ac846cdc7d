// The page of a log, written line by line. specs/Page.antt says what is right.
ghost use Rattle.std.specs.Prelude.{◌≡◌, ◌*◌, ◌≤◌, length};
ghost use Rattle.text.specs.Text.{Puts};
ghost use Rattle.reader.specs.Log.{read_log};
ghost use Rattle.history.specs.Table.{TableOf};
ghost use Rattle.timeline.specs.Page.{line_bytes, page_answer, page_leaves};
ghost use Rattle.timeline.specs.Spans.{lines_in, Drawable};

use crate::line::{put_columns, put_operation};
use crate::spans::{ByOperation, PAGE_RECORDS, span};
use history::operations::{Operations, TABLE, kind_of, tabulate, value_of};
use record::refusal::{Refusal, Refused};

// The bytes of a line, with its line feed.
const LINE: usize = 81;

// Writes the lines of the operations.
fn put_lines(
    table: &Operations,
    starts: &ByOperation,
    ends: &ByOperation,
    records: usize,
    operations: usize,
    text: &mut [u8],
) -> usize
    requires { Drawable starts.now ends.now records operations × (operations * line_bytes ≤ length text.old) }
    ensures { Puts (lines_in table.now starts.now ends.now records operations) 0
        text.old result text.new }
{
    let mut at = 0;
    for o in 0..operations {
        let right = put_operation(text, at, o, kind_of(table, o), value_of(table, o));
        at = put_columns(text, right, starts[o], ends[o], records);
    }
    at
}

// Writes the page of a readable log, whose operations are in the table.
fn write_page(
    log: &[u8],
    table: &Operations,
    records: usize,
    operations: usize,
    out: &mut [u8],
) -> Result<usize, Refused>
    requires { TableOf log.now records operations table.now }
    ensures { (result ≡ page_answer (read_log log.now) out.old)
        × (out.new ≡ page_leaves (read_log log.now) out.old) }
{
    if PAGE_RECORDS < records {
        return Err(Refused::from(Refusal::PageTooLong));
    }
    if out.len() < operations * LINE {
        return Err(Refused::from(Refusal::BufferTooShort));
    }
    let mut starts = [0usize; PAGE_RECORDS];
    let mut ends = [0usize; PAGE_RECORDS];
    span(log, records, &mut starts, &mut ends);
    Ok(put_lines(table, &starts, &ends, records, operations, out))
}

// Writes the page of a log.
pub fn page(log: &[u8], out: &mut [u8]) -> Result<usize, Refused>
    ensures { (result ≡ page_answer (read_log log.now) out.old)
        × (out.new ≡ page_leaves (read_log log.now) out.old) }
{
    let mut table = [0u32; TABLE];
    let counts = tabulate(log, &mut table)?;
    write_page(log, &table, counts.records, counts.operations, out)
}
