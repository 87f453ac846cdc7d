// A legal order of the operations in a table is found if there is one. specs/Order.antt says what is found.
ghost use Rattle.violations.specs.Search.{Single};
ghost use Rattle.matching.specs.View.{history_in};
ghost use Rattle.search.specs.Order.{Ordered};

use crate::bounds::{BOUNDS, fill_bounds, fill_limits};
use crate::gaps::fill_gaps;
use crate::search::search;
use matching::returns::POSITIONS;
use matching::values::Numbers;
use matching::view::Reached;
use reader::format::MAX_RECORDS;

// Searches for an order, by the limits that operations set, and lists it. Answers how many operations it has, or none if something is left that
// may not be placed.
#[inline(never)]
pub fn find_order(reached: &Reached, list: &mut Numbers) -> Option<usize>
    requires { Single (history_in reached.now.matched.history) }
    ensures { Ordered (history_in reached.now.matched.history) result list.new }
{
    let mut gaps = [0u32; POSITIONS];
    fill_gaps(reached, &mut gaps);
    let mut limit = [0u32; MAX_RECORDS];
    fill_limits(&reached.matched, &gaps, &mut limit);
    let mut bound = [0u32; BOUNDS];
    fill_bounds(&reached.matched.history, &limit, &mut bound);
    search(reached, &limit, &bound, list)
}
