// The marked records of a log written out as a log. What is written is said in specs/Outcome.antt, how the code does it in
// specs/Copies.antt.
ghost use Rattle.std.specs.Prelude.{length};
ghost use Rattle.history.specs.Table.{Whole};
ghost use Rattle.projection.specs.Copies.{marked, RoomFor, Copied, Writes, kept_records};

use crate::keep::Marks;
use crate::mark::mark;
use crate::measure::{end_of, measure};
use buffer::buffer::copy;
use reader::format::{HEADER, MAX_RECORDS};
use reader::header::write_header;
use record::refusal::{Refusal, Refused};

// Copies the marked records of a readable log, one behind the other, behind the header. There is a mark for each record.
fn write_records(log: &[u8], marks: &[bool], out: &mut [u8])
    requires { Whole log.now (length marks.now) × RoomFor log.now marks.now out.old }
    ensures { Copied log.now marks.now out.old out.new }
{
    let mut from = HEADER;
    let mut at = HEADER;
    for &marked in marks {
        let next = end_of(log, from);
        if marked {
            copy(&log[from..next], at, out);
            at += next - from;
        }
        from = next;
    }
}

// Writes the marked records of a readable log as a log. There is a mark for each record.
fn write_marked(log: &[u8], marks: &[bool], out: &mut [u8]) -> Result<usize, Refused>
    requires { Whole log.now (length marks.now) }
    ensures { Writes log.now (marked marks.now) out.old result out.new }
{
    let extent = measure(log, marks);
    let needed = HEADER + extent.bytes;
    if out.len() < needed {
        return Err(Refused::from(Refusal::BufferTooShort));
    }
    write_header(extent.records, out);
    write_records(log, marks, out);
    Ok(needed)
}

// Writes the records of the kept operations of a readable log as a log.
pub(crate) fn write_kept(
    log: &[u8],
    records: usize,
    kept: &Marks,
    out: &mut [u8],
) -> Result<usize, Refused>
    requires { Whole log.now records }
    ensures { Writes log.now (kept_records kept.now) out.old result out.new }
{
    let mut marks = [false; MAX_RECORDS];
    mark(log, records, kept, &mut marks);
    write_marked(log, &marks[..records], out)
}
