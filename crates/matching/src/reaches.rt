// How far the values of the adds reach. specs/Reaches.antt says what the table holds.
ghost use Rattle.std.specs.Prelude.{◌≡◌, ◌<◌};
ghost use Rattle.matching.specs.Reaches.{reach_by, ReachTable};

use crate::values::Numbers;
use crate::view::Matched;

// Where the value of an add stops covering: at the call of its partner, or at the end if it has none. Of other operations the number is not used.
fn reach_of(matched: &Matched, o: usize) -> u32
    requires { o < matched.now.history.count }
    ensures { result ≡ reach_by matched.now.history.table.now matched.now.history.end matched.now.partner.now o }
{
    match matched.partner_of(o) {
        Some(r) => matched.history.call(r),
        None => matched.history.end as u32,
    }
}

// Fills the table of how far the values of the adds reach.
pub fn fill_reaches(matched: &Matched, reach: &mut Numbers)
    ensures { ReachTable matched.now.history.count matched.now.history.end matched.now.history.table.now matched.now.partner.now reach.new }
{
    for o in 0..matched.history.count {
        reach[o] = reach_of(matched, o);
    }
}
