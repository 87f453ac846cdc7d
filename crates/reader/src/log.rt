// A whole log: readable, or turned down. What is right is said in specs/Log.antt.
ghost use Rattle.std.specs.Prelude.{◌≡◌};
ghost use Rattle.reader.specs.Log.{read_partial, read_log, checked};
ghost use Rattle.reader.specs.Tables.{surveyed};
ghost use Rattle.reader.specs.Feed.{extended};

use crate::header::read_header;
use crate::scan::{Survey, extend_records, read_records};
use record::refusal::{Refusal, Refused};

// How many records a readable log has, and how many operations they call.
#[derive(Clone, Copy)]
pub struct Counts {
    pub records: usize,
    pub operations: usize,
}

// The header, then the records: a log but for refusal 10.
fn read_partial(log: &[u8]) -> Result<Survey, Refused>
    ensures { result ≡ surveyed (read_partial log.now) }
{
    let count = read_header(log)?;
    read_records(log, count)
}

// Checks a log but for refusal 10: any number of removes may be pending.
pub fn check_partial(log: &[u8]) -> Result<Counts, Refused>
    ensures { result ≡ checked (read_partial log.now) }
{
    let survey = read_partial(log)?;
    Ok(survey.counts)
}

// Checks a log: it is readable, or refused under a number of the input list.
pub fn check(log: &[u8]) -> Result<Counts, Refused>
    ensures { result ≡ checked (read_log log.now) }
{
    let survey = read_partial(log)?;
    if let Some(index) = survey.second_remove {
        return Err(Refused {
            number: Refusal::RemovePending.number(),
            index,
        });
    }
    Ok(survey.counts)
}

// Checks bytes that are handed in as one record behind a log, which has so many records. They are refused as by a feed: the log is not
// readable even but for 10, it has as many records as a log may have, or the bytes are no record that fits behind those.
pub fn check_extension(log: &[u8], bytes: &[u8]) -> Result<usize, Refused>
    ensures { result ≡ extended (read_partial log.now) bytes.now }
{
    let Ok(count) = read_header(log) else {
        return Err(Refused::from(Refusal::SessionUnfit));
    };
    extend_records(log, count, bytes)
}
