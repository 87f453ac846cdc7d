// Sessions at the C boundary. The session is lent, and its functions are thin: the work is done by functions on its two
// numbers and the buffers.
ghost use Rattle.answers.specs.Session.{BeginAnswers, FeedAnswers, CloseAnswers, SheetAnswers, ExcerptAnswers};

use answers::sessions::{begin_turn, close_turn, excerpt_answer, feed_turn, sheet_answer};
use session::session::Session;

// Begins a session: writes a log without records into its buffer. Returns 3, the bytes written, or refusal 24.
#[unsafe(no_mangle)]
pub extern "C" fn yr_begin(s: &mut Session, buf: &mut [u8]) -> u64
    ensures { BeginAnswers s.old.stage s.old.used buf.old s.new.stage s.new.used buf.new result }
{
    let t = begin_turn(s.stage, s.used, buf);
    s.stage = t.stage;
    s.used = t.used;
    t.answer
}

// Puts a record behind those that an open session holds. Returns how many bytes it has, or a refusal: 25, 20, 21, one of the record, or
// 24.
#[unsafe(no_mangle)]
pub extern "C" fn yr_feed(s: &mut Session, buf: &mut [u8], bytes: &[u8]) -> u64
    ensures { FeedAnswers s.old.stage s.old.used buf.old bytes.now s.new.stage s.new.used buf.new result }
{
    let t = feed_turn(s.stage, s.used, buf, bytes);
    s.stage = t.stage;
    s.used = t.used;
    t.answer
}

// Closes a session: writes the sheet of the log that it holds. Returns how many bytes were written, or a refusal: 25, 20, 10 or
// 24, which leaves the session open.
#[unsafe(no_mangle)]
pub extern "C" fn yr_close(s: &mut Session, buf: &[u8], sheet: &mut [u8]) -> u64
    ensures { CloseAnswers s.old.stage s.old.used buf.now sheet.old s.new.stage s.new.used sheet.new result }
{
    let t = close_turn(s.stage, s.used, buf, sheet);
    s.stage = t.stage;
    s.used = t.used;
    t.answer
}

// Writes the sheet of a closed session again. Returns how many bytes were written, or refusal 25, 22 or 24.
#[unsafe(no_mangle)]
pub extern "C" fn yr_sheet(s: &Session, buf: &[u8], sheet: &mut [u8]) -> u64
    ensures { SheetAnswers s.now.stage s.now.used buf.now sheet.old result sheet.new }
{
    sheet_answer(s.stage, s.used, buf, sheet)
}

// Writes the excerpt of a closed session whose verdict is a pattern. Returns how many bytes were written, or refusal 25, 22, 23
// or 24.
#[unsafe(no_mangle)]
pub extern "C" fn yr_session_excerpt(s: &Session, buf: &[u8], out: &mut [u8]) -> u64
    ensures { ExcerptAnswers s.now.stage s.now.used buf.now out.old result out.new }
{
    excerpt_answer(s.stage, s.used, buf, out)
}
