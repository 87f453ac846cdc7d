// The operations of a log in a table of numbers, four for each: its kind, its value, and the positions of its call and its
// return. What they are is said in specs/Operations.antt, how the table holds them in specs/Table.antt.
ghost use Rattle.std.specs.Prelude.{◌≡◌, ◌<◌, length};
ghost use Rattle.reader.specs.Log.{max_records, read_log, checked};
ghost use Rattle.history.specs.Table.{table_length, kind_at, value_at, call_at, return_at, Tabulated};

use crate::fill::fill;
use reader::log::{Counts, check};
use record::refusal::Refused;

// The kinds of an operation.
pub const ADD: u32 = 1;

pub const REMOVE: u32 = 2;

pub const EMPTY_REMOVE: u32 = 3;

// A remove that has not returned: nothing is known of it.
pub const NO_KIND: u32 = 0;

// The fields of an operation's entry, which starts at FIELDS times its number.
pub(crate) const FIELDS: usize = 4;

pub(crate) const KIND: usize = 0;

pub(crate) const VALUE: usize = 1;

pub(crate) const CALL: usize = 2;

pub(crate) const RETURN: usize = 3;

// A table with an entry for each operation that a log may have.
pub const TABLE: usize = 4096;

pub type Operations = [u32; TABLE];

// The kind of an operation.
pub fn kind_of(table: &Operations, o: usize) -> u32
    requires { o < max_records }
    ensures { result ≡ kind_at table.now o }
{
    table[o * FIELDS + KIND]
}

// The value of an operation, or 0 if it has none.
pub fn value_of(table: &Operations, o: usize) -> u32
    requires { o < max_records }
    ensures { result ≡ value_at table.now o }
{
    table[o * FIELDS + VALUE]
}

// The position of an operation's call.
pub fn call_of(table: &Operations, o: usize) -> u32
    requires { o < max_records }
    ensures { result ≡ call_at table.now o }
{
    table[o * FIELDS + CALL]
}

// The position of an operation's return, or the end if it has not returned.
pub fn return_of(table: &Operations, o: usize) -> u32
    requires { o < max_records }
    ensures { result ≡ return_at table.now o }
{
    table[o * FIELDS + RETURN]
}

// Checks a log and, if it is readable, fills the table with its operations. What that takes of the stack is free again when it returns.
#[inline(never)]
pub fn tabulate(log: &[u8], table: &mut Operations) -> Result<Counts, Refused>
    requires { length table.old ≡ table_length }
    ensures { (result ≡ checked (read_log log.now)) × Tabulated (read_log log.now) table.old table.new }
{
    let counts = check(log)?;
    fill(log, counts.records, table);
    Ok(counts)
}
