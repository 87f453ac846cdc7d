// Pairs of adds that show the patterns 4 and 5: the first precedes the second, and the second's remove returns before the first's value stops
// covering. specs/Blocked.antt says what is found.
ghost use Rattle.std.specs.Prelude.{◌≡◌, ◌<◌};
ghost use Rattle.history.specs.Answers.{Decides};
ghost use Rattle.history.specs.History.{add};
ghost use Rattle.violations.specs.Violations.{Is};
ghost use Rattle.matching.specs.Answers.{FirstIn};
ghost use Rattle.matching.specs.View.{history_in};
ghost use Rattle.patterns.specs.Pattern.{number_of};
ghost use Rattle.patterns.specs.Blocked.{pattern_by, removal_by};
ghost use Rattle.patterns.specs.Views.{SoonestIn, BlocksIn, BlockingIn};

use crate::pattern::Pattern;
use history::operations::ADD;
use matching::returns::Positions;
use matching::view::{Matched, Reached};

// When the remove of an add's value returns; the end if there is none, or if b is no add.
fn removal_of(matched: &Matched, b: usize) -> u32
    requires { b < matched.now.history.count }
    ensures { result ≡ removal_by (history_in matched.now.history) matched.now.partner.now b }
{
    let h = &matched.history;
    if h.kind(b) != ADD {
        return h.end as u32;
    }
    match matched.partner_of(b) {
        Some(r) => h.returned(r),
        None => h.end as u32,
    }
}

// Fills, for each position, the soonest return of a remove whose add is called from there on, or the end if there is none. It goes from the last
// position down; o is the first operation called from p on.
pub(crate) fn fill_soonest(matched: &Matched, soonest: &mut Positions)
    ensures { SoonestIn matched.now soonest.new }
{
    let h = &matched.history;
    let mut least = h.end as u32;
    let mut o = h.count;
    for p in (0..h.end).rev() {
        if 0 < o {
            if h.call(o - 1) == p as u32 {
                o -= 1;
                least = removal_of(matched, o).min(least);
            }
        }
        soonest[p] = least;
    }
}

// The lowest add that add a blocks, if there is one: it is called after a has returned, and removed while a's value is still there.
pub(crate) fn blocked_by(reached: &Reached, a: usize) -> Option<usize>
    requires { Is (history_in reached.now.matched.history) add a }
    ensures { FirstIn (BlocksIn reached.now a) reached.now.matched.history.count result }
{
    let matched = &reached.matched;
    let h = &matched.history;
    for b in 0..h.count {
        if h.returned(a) < h.call(b) {
            if removal_of(matched, b) < reached.reach[a] {
                return Some(b);
            }
        }
    }
    None
}

// The pattern that an add shows if it blocks another: 4 if it is never removed, else 5.
fn pattern_of(matched: &Matched, a: usize) -> Pattern
    requires { a < matched.now.history.count }
    ensures { number_of result ≡ pattern_by matched.now.partner.now a }
{
    match matched.partner_of(a) {
        None => Pattern::Stuck,
        Some(_) => Pattern::Overtaken,
    }
}

// Whether an operation is an add that shows a pattern. A pending add precedes nothing, so it blocks nothing.
fn shows_blocking(reached: &Reached, soonest: &Positions, a: usize, pattern: Pattern) -> bool
    requires { SoonestIn reached.now.matched soonest.now × (a < reached.now.matched.history.count) }
    ensures { Decides (BlockingIn reached.now (number_of pattern) a) result }
{
    let h = &reached.matched.history;
    if h.kind(a) != ADD {
        return false;
    }
    if pattern_of(&reached.matched, a) != pattern {
        return false;
    }
    let returned = h.returned(a) as usize;
    if h.end <= returned {
        return false;
    }
    soonest[returned] < reached.reach[a]
}

// The lowest add that shows a pattern, if one does.
pub(crate) fn first_blocking(
    reached: &Reached,
    soonest: &Positions,
    pattern: Pattern,
) -> Option<usize>
    requires { SoonestIn reached.now.matched soonest.now }
    ensures { FirstIn (BlockingIn reached.now (number_of pattern)) reached.now.matched.history.count result }
{
    for a in 0..reached.matched.history.count {
        if shows_blocking(reached, soonest, a, pattern) {
            return Some(a);
        }
    }
    None
}
