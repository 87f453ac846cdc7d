// The log that is fed: begin writes an empty one, and feed puts a record behind those that are held.
ghost use Rattle.std.specs.Prelude.{◌≡◌};
ghost use Rattle.session.specs.Session.{begin_answer, begin_leaves, Opened, feed_answer, feed_leaves};

use crate::held::stage_refusal;
use crate::session::OPEN;
use buffer::buffer::copy;
use reader::format::HEADER;
use reader::header::{write_count, write_header};
use reader::log::check_extension;
use record::refusal::{Refusal, Refused};

// Begins a session: writes a log without records.
pub fn begin(buf: &mut [u8]) -> Result<usize, Refused>
    ensures { (result ≡ begin_answer buf.old) × (buf.new ≡ begin_leaves buf.old) }
{
    if buf.len() < HEADER {
        return Err(Refused::from(Refusal::BufferTooShort));
    }
    write_header(0, buf);
    Ok(HEADER)
}

// Refusals 25 and 20, as far as they can be told without reading the log that an open session holds.
fn opened(stage: u32, used: u32, buf: &[u8]) -> Result<(), Refusal>
    ensures { Opened stage used buf.now result }
{
    if stage != OPEN {
        return stage_refusal(OPEN, stage, used, buf);
    }
    if buf.len() < used as usize {
        return Err(Refusal::SessionUnfit);
    }
    Ok(())
}

// Puts a record behind those that an open session holds.
pub fn feed(stage: u32, used: u32, buf: &mut [u8], bytes: &[u8]) -> Result<usize, Refused>
    ensures { (result ≡ feed_answer stage used buf.old bytes.now)
        × (buf.new ≡ feed_leaves stage used buf.old bytes.now) }
{
    opened(stage, used, buf)?;
    let end = used as usize;
    let records = check_extension(&buf[..end], bytes)?;
    if buf.len() - end < bytes.len() {
        return Err(Refused::from(Refusal::BufferTooShort));
    }
    write_count(records + 1, buf);
    copy(bytes, end, buf);
    Ok(bytes.len())
}
