// The verdict on the history in a table: patterns 1 to 3 as values are matched, then the search for an order, and 4 to 6 only if that stops
// short. Where a remove has not returned and leaving it out gives a pattern, the one fate that can succeed is tried. specs/Decision.antt says what
// is found.
ghost use Rattle.reader.specs.Log.{max_records};
ghost use Rattle.history.specs.History.{no_kind, Lone};
ghost use Rattle.history.specs.Table.{tabled};
ghost use Rattle.violations.specs.Violations.{Is};
ghost use Rattle.matching.specs.Held.{Held};
ghost use Rattle.matching.specs.Matching.{Cleared, Partners};
ghost use Rattle.matching.specs.View.{history_in};
ghost use Rattle.judge.specs.Decision.{CompleteDecided, byte_in, count_in, FateTried, DecidedBy};

use fates::fates::{pending_remove, soonest_free, take};
use history::operations::Operations;
use matching::reaches::fill_reaches;
use matching::values::{Numbers, match_values};
use matching::view::{History, Matched, Reached};
use patterns::find::{Finding, find_cause, find_sign};
use reader::format::MAX_RECORDS;
use search::order::find_order;

// The verdict on a history as it stands: an order of so many operations, or a pattern.
#[derive(Drop)]
pub enum Judged {
    Order(usize),
    Pattern(Finding),
}

// The verdict on the history in the table as it stands, with a remove without return left out, and the operations that it lists. The partners of
// the operations are left in their table.
pub fn decide_complete(h: &History, partner: &mut Numbers, list: &mut Numbers) -> Judged
    requires { Cleared max_records partner.old }
    ensures { Partners h.now.table.now h.now.count partner.new × CompleteDecided (history_in h.now) (byte_in result) (count_in result) list.new }
{
    match_values(h.table, h.count, partner);
    let matched = Matched {
        history: *h,
        partner,
    };
    if let Some(sign) = find_sign(&matched, list) {
        return Judged::Pattern(sign);
    }
    let mut reach = [0u32; MAX_RECORDS];
    fill_reaches(&matched, &mut reach);
    let reached = Reached {
        matched,
        reach: &reach,
    };
    match find_order(&reached, list) {
        Some(placed) => Judged::Order(placed),
        None => Judged::Pattern(find_cause(&reached, list)),
    }
}

// Tries the one fate of remove o, which has not returned, that can succeed where leaving it out gives a pattern. Answers how many operations the
// order has, if it succeeds. The table then holds the history with this fate.
fn try_fate(
    table: &mut Operations,
    count: usize,
    end: usize,
    partner: &mut Numbers,
    o: usize,
    order: &mut Numbers,
) -> Option<usize>
    requires { Held (tabled count end table.old)
        × Lone (tabled count end table.old)
        × Partners table.old count partner.old
        × Is (tabled count end table.old) no_kind o }
    ensures { FateTried (tabled count end table.old) result order.new }
{
    let a = soonest_free(&History { table, count, end }, partner)?;
    take(table, end, o, a);
    *partner = [0u32; MAX_RECORDS];
    match decide_complete(&History { table, count, end }, partner, order) {
        Judged::Order(placed) => Some(placed),
        Judged::Pattern(_) => None,
    }
}

// What is decided: an order of so many operations that leaves a remove without return out, and they stand in the list; an order in which that
// remove takes a value, and they stand in the order; or a pattern, whose operations stand in the list.
#[derive(Drop)]
pub enum Decision {
    LeftOut(usize),
    Taking(usize),
    Pattern(Finding),
}

// Decides the history in the table, which is then used up.
pub fn decide(
    table: &mut Operations,
    count: usize,
    end: usize,
    list: &mut Numbers,
    order: &mut Numbers,
) -> Decision
    requires { Held (tabled count end table.old)
        × Lone (tabled count end table.old) }
    ensures { DecidedBy (tabled count end table.old) result list.new order.new }
{
    let mut partner = [0u32; MAX_RECORDS];
    let h = History { table, count, end };
    let found = match decide_complete(&h, &mut partner, list) {
        Judged::Order(placed) => return Decision::LeftOut(placed),
        Judged::Pattern(found) => found,
    };
    let Some(o) = pending_remove(table, count) else {
        return Decision::Pattern(found);
    };
    match try_fate(table, count, end, &mut partner, o, order) {
        Some(placed) => Decision::Taking(placed),
        None => Decision::Pattern(found),
    }
}
