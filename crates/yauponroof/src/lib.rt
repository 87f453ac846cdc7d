// The C interface, include/yauponroof.h: thin exports on byte slices and numbers. Every call answers one number, whose high
// 32 bits are 0 if the call was accepted, else the refusal's number, and whose low 32 bits are what the call returns, or the
// refusal's record index. The crate answers makes that number and says, in its specs/, which one each outcome is.
#![tactic(auto)]

ghost use Rattle.std.specs.Prelude.{◌≡◌};
ghost use Rattle.buffer.specs.Output.{output_answer};
ghost use Rattle.reader.specs.Log.{read_log, checked};
ghost use Rattle.timeline.specs.Page.{page_answer, page_leaves};
ghost use Rattle.replay.specs.Replay.{replayed};
ghost use Rattle.projection.specs.Outcome.{excerpt_answer, excerpt_leaves, narrow_answer, narrow_leaves};
ghost use Rattle.answers.specs.Answer.{check_answer, replay_answer, JudgeAnswers};

pub mod sessions;

use answers::answer::{check_answer, judge_answer, output_answer, replay_answer};
use judge::judge::judge;
use projection::excerpt::excerpt;
use projection::narrow::narrow;
use reader::log::check;
use replay::replay::replay;
use timeline::page::page;

// Checks a log. Returns the number of its operations, or a refusal of the log.
#[unsafe(no_mangle)]
pub extern "C" fn yr_check(log: &[u8]) -> u64
    ensures { result ≡ check_answer (checked (read_log log.now)) }
{
    check_answer(check(log))
}

// Holds the order that a sheet lists against a log. Returns 1 if it is legal and 0 if it is not, or a refusal: of the log, or 11.
#[unsafe(no_mangle)]
pub extern "C" fn yr_replay(log: &[u8], sheet: &[u8]) -> u64
    ensures { result ≡ replay_answer (replayed (read_log log.now) sheet.now) }
{
    replay_answer(replay(log, sheet))
}

// Judges a log: writes the sheet of its verdict. Returns how many bytes were written, or a refusal: of the log, or 24.
#[unsafe(no_mangle)]
pub extern "C" fn yr_judge(log: &[u8], sheet: &mut [u8]) -> u64
    ensures { JudgeAnswers (read_log log.now) sheet.old result sheet.new }
{
    judge_answer(judge(log, sheet))
}

// Writes the excerpt of a log whose verdict is a pattern. Returns how many bytes were written, or a refusal: of the log, 23 or 24.
#[unsafe(no_mangle)]
pub extern "C" fn yr_excerpt(log: &[u8], out: &mut [u8]) -> u64
    ensures { (result ≡ output_answer (excerpt_answer (read_log log.now) out.old))
        × (out.new ≡ excerpt_leaves (read_log log.now) out.old) }
{
    output_answer(excerpt(log, out))
}

// Writes the log of the operations on these values. Returns how many bytes were written, or a refusal: of the log, or 24.
#[unsafe(no_mangle)]
pub extern "C" fn yr_narrow(log: &[u8], values: &[u32], out: &mut [u8]) -> u64
    ensures { (result ≡ output_answer (narrow_answer (read_log log.now) values.now out.old))
        × (out.new ≡ narrow_leaves (read_log log.now) values.now out.old) }
{
    output_answer(narrow(log, values, out))
}

// Writes the page of a log of at most 63 records. Returns how many bytes were written, or a refusal: of the log, 24 or 30.
#[unsafe(no_mangle)]
pub extern "C" fn yr_page(log: &[u8], out: &mut [u8]) -> u64
    ensures { (result ≡ output_answer (page_answer (read_log log.now) out.old))
        × (out.new ≡ page_leaves (read_log log.now) out.old) }
{
    output_answer(page(log, out))
}
