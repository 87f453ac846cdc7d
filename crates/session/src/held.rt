// The log that a session holds, and what is asked of it: close and sheet judge it, excerpt writes its excerpt.
ghost use Rattle.std.specs.Prelude.{◌≡◌};
ghost use Rattle.judge.specs.Judge.{Judges};
ghost use Rattle.projection.specs.Outcome.{excerpt_answer, excerpt_leaves};
ghost use Rattle.session.specs.Session.{closed_stage, session_fits, stage_refusal, session_reading, stage_closed};

use crate::session::{CLOSED, OPEN};
use judge::judge::{Verdict, judge};
use projection::excerpt::excerpt;
use reader::log::{check, check_partial};
use record::refusal::{Refusal, Refused};

// Whether a session fits its buffer: it is open or closed, the used bytes are there, and they are a readable log, of an open
// session but for 10.
fn fits(stage: u32, used: u32, buf: &[u8]) -> bool
    ensures { result ≡ session_fits stage used buf.now }
{
    let end = used as usize;
    if buf.len() < end {
        return false;
    }
    match stage {
        OPEN => check_partial(&buf[..end]).is_ok(),
        CLOSED => check(&buf[..end]).is_ok(),
        _ => false,
    }
}

// Refusals 25, and 20 or 22: whether something may be asked of a session that has to be in the wanted stage.
pub(crate) fn stage_refusal(wanted: u32, stage: u32, used: u32, buf: &[u8]) -> Result<(), Refusal>
    ensures { result ≡ stage_refusal wanted stage used buf.now }
{
    if !fits(stage, used, buf) {
        return Err(Refusal::SessionUnfit);
    }
    if stage == wanted {
        return Ok(());
    }
    if wanted == OPEN {
        return Err(Refusal::SessionClosed);
    }
    Err(Refusal::SessionOpen)
}

// Judges the log that a session holds. The session has to be in the wanted stage, open for close and closed for sheet.
pub fn judge_held(wanted: u32, stage: u32, used: u32, buf: &[u8], sheet: &mut [u8]) -> Verdict
    ensures { Judges (session_reading wanted stage used buf.now) sheet.old result sheet.new }
{
    match stage_refusal(wanted, stage, used, buf) {
        Ok(()) => {
            let end = used as usize;
            judge(&buf[..end], sheet)
        }
        Err(refusal) => Verdict::Refused(Refused::from(refusal)),
    }
}

// The stage behind a close, by its answer.
pub fn stage_closed(stage: u32, answer: Verdict) -> u32
    ensures { result ≡ stage_closed stage answer }
{
    match answer {
        Verdict::Order(_) => CLOSED,
        Verdict::Pattern { .. } => CLOSED,
        Verdict::Refused(_) => stage,
    }
}

// Writes the excerpt of the log that a closed session holds.
pub fn excerpt_held(stage: u32, used: u32, buf: &[u8], out: &mut [u8]) -> Result<usize, Refused>
    ensures { (result ≡ excerpt_answer (session_reading closed_stage stage used buf.now) out.old)
        × (out.new ≡ excerpt_leaves (session_reading closed_stage stage used buf.now) out.old) }
{
    stage_refusal(CLOSED, stage, used, buf)?;
    let end = used as usize;
    excerpt(&buf[..end], out)
}
