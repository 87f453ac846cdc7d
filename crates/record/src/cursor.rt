// A reader runs along a log's bytes and remembers how far it has come, its offset. The functions over it are thin: the work
// is done by a function on the slice and the number.
ghost use Rattle.std.specs.Prelude.{◌≡◌};
ghost use Rattle.record.specs.Frame.{frame_at};
ghost use Rattle.record.specs.Cursor.{behind};

use crate::frame::frame_at;
use crate::refusal::Refusal;

#[derive(Drop)]
pub struct Reader<'a> {
    pub log: &'a [u8],
    pub at: usize,
}

// What stands at an offset, and how far a reader that was there has then come.
#[derive(Drop)]
pub struct Advance {
    pub frame: Result<usize, Refusal>,
    pub at: usize,
}

// The work of `next`, on slice and number.
fn step_at(log: &[u8], at: usize) -> Advance
    ensures { (result.frame ≡ frame_at log.now at) × (result.at ≡ behind (frame_at log.now at) at) }
{
    match frame_at(log, at) {
        Ok(next) => Advance {
            frame: Ok(next),
            at: next,
        },
        Err(refusal) => Advance {
            frame: Err(refusal),
            at,
        },
    }
}

// A reader that has come as far as `at`.
pub(crate) fn reader_at<'a>(log: &'a [u8], at: usize) -> Reader<'a>
    ensures { (result.log ≡ log.entry) × (result.at ≡ at) }
{
    Reader { log, at }
}

// The frame where the reader is, with the reader moved past it. A refusal leaves the reader where it was.
pub(crate) fn next<'s, 'a>(r: &'s mut Reader<'a>) -> Result<usize, Refusal>
    ensures { (result ≡ frame_at r.old.log.now r.old.at)
        × (r.new.log ≡ r.old.log)
        × (r.new.at ≡ behind result r.old.at) }
{
    let s = step_at(r.log, r.at);
    r.at = s.at;
    s.frame
}

// The frame at an offset, for callers with a plain slice and a number.
pub fn read_frame(log: &[u8], at: usize) -> Result<usize, Refusal>
    ensures { result ≡ frame_at log.now at }
{
    let mut r = reader_at(log, at);
    next(&mut r)
}
