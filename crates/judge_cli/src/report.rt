// The report of a log: what the program prints, line by line. What is right is said in specs/Report.antt.
ghost use Rattle.std.specs.Prelude.{◌+◌, ◌*◌, ◌≤◌, length};
ghost use Rattle.reader.specs.Log.{read_log};
ghost use Rattle.history.specs.Sheet.{sheet_header, numbers_from};
ghost use Rattle.text.specs.Text.{Puts};
ghost use Rattle.judge_cli.specs.Report.{counts_line, order_line, pattern_line, refusal_line, Reported};
ghost use Rattle.judge_cli.specs.Writing.{report_room, counts_of, listing, answer_line, OnSheet};

use history::sheet::{SHEET_HEADER, operation_at};
use judge::judge::{Verdict, judge};
use reader::format::MAX_RECORDS;
use reader::log::check;
use record::refusal::Refused;
use text::text::{end_line, put_bytes, put_field};

// The sheet is always long enough: a verdict on a log lists at most as many operations as a log may have records, in two bytes each.
const SHEET: usize = SHEET_HEADER + 2 * MAX_RECORDS;

// The longest first line, with two numbers of four digits.
const FIRST_LINE: usize = 33;

// The longest second line: "pattern", a number of one digit and the line feed; a space and four digits for each operation listed.
const SECOND_LINE: usize = 10 + 5 * MAX_RECORDS;

// Room for every report.
pub const REPORT: usize = FIRST_LINE + SECOND_LINE;

// Writes the line for so many records and operations.
fn put_counts(text: &mut [u8], records: usize, operations: usize) -> usize
    requires { length (counts_line records operations) ≤ length text.old }
    ensures { Puts (counts_line records operations) 0 text.old result text.new }
{
    let mut at = put_bytes(text, 0, b"log");
    at = put_field(text, at, records);
    at = put_bytes(text, at, b" records");
    at = put_field(text, at, operations);
    put_bytes(text, at, b" operations\n")
}

// Writes the first line for a log, nothing if it is refused.
fn put_counts_of(text: &mut [u8], log: &[u8]) -> usize
    requires { length (counts_of (read_log log.now)) ≤ length text.old }
    ensures { Puts (counts_of (read_log log.now)) 0 text.old result text.new }
{
    match check(log) {
        Err(_) => 0,
        Ok(counts) => put_counts(text, counts.records, counts.operations),
    }
}

// Writes the first k operations that a sheet lists, each behind a space.
fn put_listed(text: &mut [u8], at: usize, sheet: &[u8], k: usize) -> usize
    requires { (sheet_header + 2 * k ≤ length sheet.now) × (at + length (listing sheet.now k) ≤ length text.old) }
    ensures { Puts (listing sheet.now k) at text.old result text.new }
{
    let mut next = at;
    for i in 0..k {
        next = put_field(text, next, operation_at(sheet, i));
    }
    next
}

// Writes the line of an order.
fn put_order(text: &mut [u8], at: usize, sheet: &[u8], k: usize) -> usize
    requires { (sheet_header + 2 * k ≤ length sheet.now) × (at + length (order_line (numbers_from sheet.now sheet_header k)) ≤ length text.old) }
    ensures { Puts (order_line (numbers_from sheet.now sheet_header k)) at text.old result text.new }
{
    let mut next = put_bytes(text, at, b"order");
    next = put_listed(text, next, sheet, k);
    end_line(text, next)
}

// Writes the line of a pattern.
fn put_pattern(text: &mut [u8], at: usize, number: usize, sheet: &[u8], k: usize) -> usize
    requires { (sheet_header + 2 * k ≤ length sheet.now) × (at + length (pattern_line number (numbers_from sheet.now sheet_header k)) ≤ length text.old) }
    ensures { Puts (pattern_line number (numbers_from sheet.now sheet_header k)) at text.old result text.new }
{
    let mut next = put_bytes(text, at, b"pattern");
    next = put_field(text, next, number);
    next = put_listed(text, next, sheet, k);
    end_line(text, next)
}

// Writes the line of a refusal.
fn put_refusal(text: &mut [u8], at: usize, number: usize, index: usize) -> usize
    requires { at + length (refusal_line number index) ≤ length text.old }
    ensures { Puts (refusal_line number index) at text.old result text.new }
{
    let mut next = put_bytes(text, at, b"refused");
    next = put_field(text, next, number);
    next = put_field(text, next, index);
    end_line(text, next)
}

// Writes the line for the judge's answer.
fn put_answer(text: &mut [u8], at: usize, answer: Verdict, sheet: &[u8]) -> usize
    requires { OnSheet answer sheet.now × (at + length (answer_line answer sheet.now) ≤ length text.old) }
    ensures { Puts (answer_line answer sheet.now) at text.old result text.new }
{
    match answer {
        Verdict::Order(k) => put_order(text, at, sheet, k),
        Verdict::Pattern { number, listed } => {
            put_pattern(text, at, number as usize, sheet, listed)
        }
        Verdict::Refused(r) => put_refusal(text, at, r.number as usize, r.index),
    }
}

// Judges a log and writes its report. Answers how many bytes it has.
pub(crate) fn report(log: &[u8], text: &mut [u8]) -> usize
    requires { report_room ≤ length text.old }
    ensures { Reported (read_log log.now) text.old result text.new }
{
    let mut sheet = [0u8; SHEET];
    let answer = judge(log, &mut sheet);
    let at = put_counts_of(text, log);
    put_answer(text, at, answer, &sheet)
}
