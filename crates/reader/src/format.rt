// The numbers of the log format: the version byte, the bytes of the header, and the most records that a log may have.
pub const VERSION: u8 = 1;

pub const HEADER: usize = 3;

pub const MAX_RECORDS: usize = 1024;
