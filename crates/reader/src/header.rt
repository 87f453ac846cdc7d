// The header of a log, read and written. What is right is said in specs/Log.antt, what reading it tells in specs/Tables.antt.
ghost use Rattle.std.specs.Prelude.{◌≡◌, ◌∷◌, ◌≤◌, length};
ghost use Rattle.record.specs.Number.{bytes_of};
ghost use Rattle.buffer.specs.Buffer.{put};
ghost use Rattle.reader.specs.Log.{log_version, header_length, with_count};
ghost use Rattle.reader.specs.Tables.{header_of};

use crate::format::{HEADER, MAX_RECORDS, VERSION};
use buffer::buffer::put16;
use record::number::be16;
use record::refusal::Refusal;

// Reads the header: the number of records.
pub(crate) fn read_header(log: &[u8]) -> Result<usize, Refusal>
    ensures { result ≡ header_of log.now }
{
    if log.len() < HEADER {
        return Err(Refusal::WrongBytes);
    }
    if log[0] != VERSION {
        return Err(Refusal::WrongVersion);
    }
    let count = be16(log, 1) as usize;
    if MAX_RECORDS < count {
        return Err(Refusal::TooManyRecords);
    }
    Ok(count)
}

// Writes the number of records into the header of a log.
pub fn write_count(count: usize, out: &mut [u8])
    requires { header_length ≤ length out.old }
    ensures { out.new ≡ with_count count out.old }
{
    put16(count, 1, out)
}

// Writes the header of a log of so many records.
pub fn write_header(count: usize, out: &mut [u8])
    requires { header_length ≤ length out.old }
    ensures { out.new ≡ put 0 (log_version ∷ bytes_of 2 count) out.old }
{
    out[0] = VERSION;
    write_count(count, out)
}
