// One line of a page, written piece by piece. specs/Page.antt says what stands in it.
ghost use Rattle.std.specs.Prelude.{◌≡◌, ◌+◌, ◌≤◌, ◌<◌, length};
ghost use Rattle.text.specs.Text.{decimal, Puts};
ghost use Rattle.timeline.specs.Page.{page_records, letter_of, label_of};
ghost use Rattle.timeline.specs.Spans.{left_bytes, right_bytes, left_part, right_part};

use crate::spans::PAGE_RECORDS;
use history::operations::{ADD, EMPTY_REMOVE, NO_KIND};
use text::text::{SPACE, end_line, put_byte, put_number, put_run};

// The bytes of a line before its columns.
const LEFT: usize = 17;

const DOT: u8 = b'.';

const HASH: u8 = b'#';

// A for an add, R for a remove, also for one that has not returned, E for an empty one.
fn letter_of(kind: u32) -> u8
    ensures { result ≡ letter_of kind }
{
    match kind {
        ADD => b'A',
        EMPTY_REMOVE => b'E',
        _ => b'R',
    }
}

// Writes the label of an operation: its letter and, unless it is a remove that came back empty or has not returned, its value.
fn put_label(text: &mut [u8], at: usize, kind: u32, value: u32) -> usize
    requires { at + 11 ≤ length text.old }
    ensures { Puts (label_of kind value) at text.old result text.new }
{
    let digits = put_byte(text, at, letter_of(kind));
    if kind == EMPTY_REMOVE {
        return digits;
    }
    if kind == NO_KIND {
        return digits;
    }
    put_number(text, digits, value as usize)
}

// How many spaces stand before an operation's number, which has one digit or two.
fn padding(o: usize) -> usize
    requires { o < page_records }
    ensures { result + length (decimal o) ≡ 4 }
{
    if o < 10 { 3 } else { 2 }
}

// Writes characters 1 to 17 of an operation's line: its number and its label.
pub(crate) fn put_operation(text: &mut [u8], at: usize, o: usize, kind: u32, value: u32) -> usize
    requires { (at + left_bytes ≤ length text.old) × (o < page_records) }
    ensures { (result ≡ at + left_bytes) × Puts (left_part o kind value) at text.old result text.new }
{
    let number = put_run(text, at, at + padding(o), SPACE);
    let fifth = put_number(text, number, o);
    let label = put_byte(text, fifth, SPACE);
    let end = put_label(text, label, kind, value);
    put_run(text, end, at + LEFT, SPACE)
}

// Writes characters 18 to 80 of a line, with # in the columns from `start` on and up to `end`, and the line feed.
pub(crate) fn put_columns(
    text: &mut [u8],
    at: usize,
    start: usize,
    end: usize,
    records: usize,
) -> usize
    requires { (at + right_bytes ≤ length text.old) × (start ≤ end) × (end ≤ records) × (records ≤ page_records) }
    ensures { (result ≡ at + right_bytes) × Puts (right_part start end records) at text.old result text.new }
{
    let hashes = put_run(text, at, at + start, DOT);
    let dots = put_run(text, hashes, at + end, HASH);
    let spaces = put_run(text, dots, at + records, DOT);
    let last = put_run(text, spaces, at + PAGE_RECORDS, SPACE);
    end_line(text, last)
}
