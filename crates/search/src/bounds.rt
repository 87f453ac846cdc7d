// Which adds may enter the queue: an operation that is left may set a limit to how far their values reach. specs/Bounds.antt says what the tables
// of limits and of bounds hold.
ghost use Rattle.std.specs.Prelude.{◌≡◌, ◌<◌};
ghost use Rattle.search.specs.Bounds.{limit_by, LimitTable, BoundTable};

use history::operations::{ADD, EMPTY_REMOVE};
use matching::returns::Positions;
use matching::values::Numbers;
use matching::view::{History, Matched};

// One number more than there are operations.
pub const BOUNDS: usize = 1025;

pub type Bounds = [u32; BOUNDS];

// The limit that an operation sets as long as it is left. A value that enters the queue has to reach less far: than the return of the remove
// of an add that is left, and than a number 1 above the last uncovered gap of an empty remove. Others set none: the end and 1.
fn limit_of(matched: &Matched, gaps: &Positions, o: usize) -> u32
    requires { o < matched.now.history.count }
    ensures { result ≡ limit_by matched.now.history.table.now matched.now.history.end matched.now.partner.now gaps.now o }
{
    let h = &matched.history;
    match h.kind(o) {
        ADD => match matched.partner_of(o) {
            Some(r) => h.returned(r),
            None => h.end as u32 + 1,
        },
        EMPTY_REMOVE => gaps[h.returned(o) as usize - 1],
        _ => h.end as u32 + 1,
    }
}

// Fills the table of limits.
pub(crate) fn fill_limits(matched: &Matched, gaps: &Positions, limit: &mut Numbers)
    ensures { LimitTable matched.now.history.count matched.now.history.end matched.now.history.table.now matched.now.partner.now gaps.now limit.new }
{
    for o in 0..matched.history.count {
        limit[o] = limit_of(matched, gaps, o);
    }
}

// Fills for each operation the least limit from it on, from the last operation down; behind the last there is none, the end and 1.
pub(crate) fn fill_bounds(h: &History, limit: &Numbers, bound: &mut Bounds)
    ensures { BoundTable h.now.count h.now.end limit.now 0 bound.new }
{
    bound[h.count] = h.end as u32 + 1;
    for o in (0..h.count).rev() {
        bound[o] = limit[o].min(bound[o + 1]);
    }
}
