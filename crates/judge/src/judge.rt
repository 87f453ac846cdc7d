// Judging: a log goes in, and a verdict comes out, whose operations stand on the lent sheet. What is right is said in specs/Judge.antt.
ghost use Rattle.std.specs.Prelude.{◌≤◌, ◌<◌, length};
ghost use Rattle.reader.specs.Log.{max_records, read_log};
ghost use Rattle.judge.specs.Judge.{Judges, Delivers};

use crate::decide::{Decision, decide};
use history::operations::{TABLE, tabulate};
use history::sheet::{SHEET_HEADER, write_sheet};
use patterns::pattern::Pattern;
use reader::format::MAX_RECORDS;
use record::refusal::{Refusal, Refused};

// An order, with its length; a pattern, with its number and how many operations it lists; or a refusal: of the log, of the sheet under 24 or, where
// a session is judged, by how it stands. The operations stand on the sheet.
#[derive(Clone, Copy)]
pub enum Verdict {
    Order(usize),
    Pattern { number: u32, listed: usize },
    Refused(Refused),
}

// The verdict byte of an order.
pub const ORDER: u32 = 0;

// Writes the sheet of a pattern, or of an order, that lists these operations, if there is room for it.
fn deliver(pattern: Option<Pattern>, listed: &[u32], sheet: &mut [u8]) -> Verdict
    requires { length listed.now ≤ max_records }
    ensures { Delivers pattern listed.now sheet.old result sheet.new }
{
    let k = listed.len();
    if sheet.len() < SHEET_HEADER + 2 * k {
        return Verdict::Refused(Refused::from(Refusal::BufferTooShort));
    }
    match pattern {
        Some(pattern) => {
            let number = pattern as u32;
            write_sheet(number, listed, sheet);
            Verdict::Pattern { number, listed: k }
        }
        None => {
            write_sheet(ORDER, listed, sheet);
            Verdict::Order(k)
        }
    }
}

// Judges a log: writes the sheet of its verdict.
pub fn judge(log: &[u8], sheet: &mut [u8]) -> Verdict
    ensures { Judges (read_log log.now) sheet.old result sheet.new }
{
    let mut table = [0u32; TABLE];
    match tabulate(log, &mut table) {
        Err(r) => Verdict::Refused(r),
        Ok(counts) => {
            let mut list = [0u32; MAX_RECORDS];
            let mut order = [0u32; MAX_RECORDS];
            let end = counts.records + 1;
            match decide(&mut table, counts.operations, end, &mut list, &mut order) {
                Decision::LeftOut(placed) => deliver(None, &list[..placed], sheet),
                Decision::Taking(placed) => deliver(None, &order[..placed], sheet),
                Decision::Pattern(found) => {
                    deliver(Some(found.pattern), &list[..found.listed], sheet)
                }
            }
        }
    }
}
