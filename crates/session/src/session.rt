// A session: its stage, open or closed, and the number of bytes used in its buffer. The numbers are those of C, so that a
// stage may be any number.
#[repr(C)]
#[derive(Drop)]
pub struct Session {
    pub stage: u32,
    pub used: u32,
}

pub const OPEN: u32 = 0;

pub const CLOSED: u32 = 1;
