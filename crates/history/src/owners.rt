// The operation of a record, found as the records of a log are read one after the other. What it is is said in specs/Operations.antt, what
// the code keeps to find it in specs/Owners.antt.
ghost use Rattle.std.specs.Prelude.{◌≡◌, ◌<◌, if◌then◌else◌};
ghost use Rattle.reader.specs.Log.{is_call, max_records};
ghost use Rattle.history.specs.Owners.{Owned};

use map::map::Map;
use record::record::{Event, Record};

// Whether an event is a call.
pub fn is_call(event: Event) -> bool
    ensures { is_call event ≡ (if result then 1 else 0) }
{
    matches!(event, Event::CallAdd(_) | Event::CallRemove)
}

// Finds the operation of a record: a return's is the latest one of its client, and a call's is a new one, whose caller is then noted.
pub fn owner_of(r: Record, callers: &mut Map) -> usize
    requires { callers.old.count < max_records }
    ensures { Owned r callers.old result callers.new }
{
    let client = r.client as u32;
    let count = callers.count;
    if is_call(r.event) {
        callers.push(client);
        return count;
    }
    callers.find(client).unwrap_or(count)
}
