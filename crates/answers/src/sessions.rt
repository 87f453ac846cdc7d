// The work of the session calls, on the session's two numbers and the lent buffers.
ghost use Rattle.answers.specs.Session.{BeginAnswers, FeedAnswers, CloseAnswers, SheetAnswers, ExcerptAnswers};

use crate::answer::{judge_answer, output_answer};
use session::feed::{begin, feed};
use session::held::{excerpt_held, judge_held, stage_closed};
use session::session::{CLOSED, OPEN};

// The session as a call leaves it, and what the call answers.
#[derive(Drop)]
pub struct Turn {
    pub stage: u32,
    pub used: u32,
    pub answer: u64,
}

// The work of `yr_begin`, on numbers and slices.
pub fn begin_turn(stage: u32, used: u32, buf: &mut [u8]) -> Turn
    ensures { BeginAnswers stage used buf.old result.stage result.used buf.new result.answer }
{
    let output = begin(buf);
    let answer = output_answer(output);
    match output {
        Ok(size) => Turn {
            stage: OPEN,
            used: size as u32,
            answer,
        },
        Err(_) => Turn {
            stage,
            used,
            answer,
        },
    }
}

// The work of `yr_feed`.
pub fn feed_turn(stage: u32, used: u32, buf: &mut [u8], bytes: &[u8]) -> Turn
    ensures { FeedAnswers stage used buf.old bytes.now
        result.stage result.used buf.new result.answer }
{
    let output = feed(stage, used, buf, bytes);
    let answer = output_answer(output);
    match output {
        Ok(size) => Turn {
            stage,
            used: used + size as u32,
            answer,
        },
        Err(_) => Turn {
            stage,
            used,
            answer,
        },
    }
}

// The work of `yr_close`.
pub fn close_turn(stage: u32, used: u32, buf: &[u8], sheet: &mut [u8]) -> Turn
    ensures { CloseAnswers stage used buf.now sheet.old
        result.stage result.used sheet.new result.answer }
{
    let v = judge_held(OPEN, stage, used, buf, sheet);
    Turn {
        stage: stage_closed(stage, v),
        used,
        answer: judge_answer(v),
    }
}

// The work of `yr_sheet`.
pub fn sheet_answer(stage: u32, used: u32, buf: &[u8], sheet: &mut [u8]) -> u64
    ensures { SheetAnswers stage used buf.now sheet.old result sheet.new }
{
    judge_answer(judge_held(CLOSED, stage, used, buf, sheet))
}

// The work of `yr_session_excerpt`.
pub fn excerpt_answer(stage: u32, used: u32, buf: &[u8], out: &mut [u8]) -> u64
    ensures { ExcerptAnswers stage used buf.now out.old result out.new }
{
    output_answer(excerpt_held(stage, used, buf, out))
}
