// How much of a log is marked. The marked records, and what is counted of them, are said in specs/Copies.antt.
ghost use Rattle.std.specs.Prelude.{◌≡◌, length};
ghost use Rattle.record.specs.Cursor.{behind};
ghost use Rattle.record.specs.Frame.{frame_at};
ghost use Rattle.history.specs.Table.{Whole};
ghost use Rattle.projection.specs.Copies.{Measured};

use reader::format::HEADER;
use record::cursor::read_frame;

// How many records are marked, and how many bytes they take.
#[derive(Drop)]
pub struct Extent {
    pub records: usize,
    pub bytes: usize,
}

// Where the record at an offset ends.
pub(crate) fn end_of(log: &[u8], at: usize) -> usize
    ensures { result ≡ behind (frame_at log.now at) at }
{
    match read_frame(log, at) {
        Ok(next) => next,
        Err(_) => at,
    }
}

// Adds up the marked records of a readable log. There is a mark for each record.
pub(crate) fn measure(log: &[u8], marks: &[bool]) -> Extent
    requires { Whole log.now (length marks.now) }
    ensures { Measured log.now marks.now result }
{
    let mut count = 0;
    let mut bytes = 0;
    let mut at = HEADER;
    for &marked in marks {
        let next = end_of(log, at);
        if marked {
            count += 1;
            bytes += next - at;
        }
        at = next;
    }
    Extent {
        records: count,
        bytes,
    }
}
