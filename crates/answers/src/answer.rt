// The number that a call answers: what it returns, or a refusal. specs/Answer.antt says which number each outcome is.
ghost use Rattle.std.specs.Prelude.{◌≡◌, ◌<◌};
ghost use Rattle.buffer.specs.Output.{refusal_unit, refusal, output_answer};
ghost use Rattle.answers.specs.Answer.{check_answer, SmallCheck, replay_answer, SmallReplay, judge_answer, SmallVerdict, SmallOutput};

use history::sheet::SHEET_HEADER;
use judge::judge::Verdict;
use reader::log::Counts;
use record::refusal::Refused;

// What a refusal's number is multiplied by: it stands in the high 32 bits.
const REFUSAL_UNIT: u64 = 4294967296;

// A refusal as an answer.
fn refuse(r: Refused) -> u64
    requires { r.index < refusal_unit }
    ensures { result ≡ refusal r }
{
    (r.number as u64) * REFUSAL_UNIT + r.index as u64
}

// The number of operations, or a refusal, as an answer.
pub fn check_answer(c: Result<Counts, Refused>) -> u64
    requires { SmallCheck c }
    ensures { result ≡ check_answer c }
{
    match c {
        Ok(counts) => counts.operations as u64,
        Err(r) => refuse(r),
    }
}

// Yes, no or a refusal, as an answer.
pub fn replay_answer(p: Result<bool, Refused>) -> u64
    requires { SmallReplay p }
    ensures { result ≡ replay_answer p }
{
    match p {
        Ok(true) => 1,
        Ok(false) => 0,
        Err(r) => refuse(r),
    }
}

// The bytes of the sheet of a verdict, or a refusal, as an answer.
pub fn judge_answer(v: Verdict) -> u64
    requires { SmallVerdict v }
    ensures { result ≡ judge_answer v }
{
    match v {
        Verdict::Order(listed) => (SHEET_HEADER + 2 * listed) as u64,
        Verdict::Pattern { listed, .. } => (SHEET_HEADER + 2 * listed) as u64,
        Verdict::Refused(r) => refuse(r),
    }
}

// How many bytes were written, or a refusal, as an answer.
pub fn output_answer(o: Result<usize, Refused>) -> u64
    requires { SmallOutput o }
    ensures { result ≡ output_answer o }
{
    match o {
        Ok(bytes) => bytes as u64,
        Err(refused) => refuse(refused),
    }
}
