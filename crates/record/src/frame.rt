// The frame of a record: whether its length byte and as many bytes as that says are there, and where the next record starts.
// What is right is said in specs/Frame.antt.
ghost use Rattle.std.specs.Prelude.{◌≡◌};
ghost use Rattle.record.specs.Frame.{frame_at};

use crate::refusal::Refusal;

// What stands at a position of a log, whatever its kind: all bytes of a record, up to where the next one starts, or a refusal.
pub(crate) fn frame_at(log: &[u8], at: usize) -> Result<usize, Refusal>
    ensures { result ≡ frame_at log.now at }
{
    if log.len() <= at {
        return Err(Refusal::WrongBytes);
    }
    let start = at + 1;
    let length = log[at];
    if log.len() - start < length as usize {
        return Err(Refusal::WrongBytes);
    }
    if length == 0 {
        return Err(Refusal::WrongLength);
    }
    Ok(start + length as usize)
}
