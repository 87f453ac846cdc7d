// A remove that has not returned, and the one value that it may have taken where leaving it out fails: that of the add which returns first of those
// that are never removed (`Mends` in the crate violations). specs/Fates.antt says what is found.
ghost use Rattle.std.specs.Prelude.{◌≡◌, ◌-◌, ◌≤◌, ◌<◌, length};
ghost use Rattle.reader.specs.Log.{max_records};
ghost use Rattle.history.specs.History.{remove, no_kind};
ghost use Rattle.history.specs.Positions.{max_positions};
ghost use Rattle.history.specs.Table.{table_length, kind_at, value_at, call_at, Entered};
ghost use Rattle.matching.specs.Answers.{FirstIn};
ghost use Rattle.matching.specs.View.{history_in};
ghost use Rattle.fates.specs.Fates.{free_return, LeastIn};

use history::fill::enter;
use history::operations::{ADD, NO_KIND, Operations, REMOVE, call_of, kind_of, value_of};
use matching::values::Numbers;
use matching::view::History;

// The lowest remove that has not returned, if there is one.
pub fn pending_remove(table: &Operations, count: usize) -> Option<usize>
    requires { count ≤ max_records }
    ensures { FirstIn (λ p. kind_at table.now p ≡ no_kind) count result }
{
    for o in 0..count {
        if kind_of(table, o) == NO_KIND {
            return Some(o);
        }
    }
    None
}

// When an operation returns, if it is an add that is never removed; the end for every other.
fn free_return(h: &History, partner: &Numbers, a: usize) -> u32
    requires { a < h.now.count }
    ensures { result ≡ free_return (history_in h.now) partner.now a }
{
    if h.kind(a) != ADD {
        return h.end as u32;
    }
    if partner[a] != 0 {
        return h.end as u32;
    }
    h.returned(a)
}

// The add that returns first of those that are never removed, if one of them has returned.
pub fn soonest_free(h: &History, partner: &Numbers) -> Option<usize>
    ensures { LeastIn (free_return (history_in h.now) partner.now) h.now.end h.now.count result }
{
    let mut soonest = None;
    let mut least = h.end as u32;
    for a in 0..h.count {
        let returned = free_return(h, partner, a);
        if returned < least {
            soonest = Some(a);
            least = returned;
        }
    }
    soonest
}

// Remove o comes back with the value of add a, at the last position.
pub fn take(table: &mut Operations, end: usize, o: usize, a: usize)
    requires { (o < max_records) × (a < max_records) × (0 < end) × (end ≤ max_positions) × (length table.old ≡ table_length) }
    ensures { Entered table.old o remove (value_at table.old a) (call_at table.old o) (end - 1) table.new }
{
    let value = value_of(table, a);
    let call = call_of(table, o);
    enter(table, o, REMOVE, value, call, end as u32 - 1);
}
