// The gaps that no value covers, found by one sweep over the positions. specs/Gaps.antt says what the table of gaps holds.
ghost use Rattle.std.specs.Prelude.{◌≤◌};
ghost use Rattle.history.specs.Positions.{max_positions};
ghost use Rattle.matching.specs.Matching.{Cleared};
ghost use Rattle.matching.specs.View.{history_in};
ghost use Rattle.search.specs.Gaps.{Swept, Uncovered};

use matching::returns::{Positions, note_returns};
use matching::view::Reached;

// Fills for each position a number 1 above the last gap up to there that no value covers, or 0 if there is none. A gap is covered if a value
// whose add has returned reaches beyond it.
fn sweep(end: usize, gaps: &mut Positions)
    requires { end ≤ max_positions }
    ensures { Swept end gaps.old gaps.new }
{
    let mut furthest = 0u32;
    let mut last = 0;
    for g in 0..end {
        furthest = furthest.max(gaps[g]);
        if furthest <= g as u32 {
            last = g as u32 + 1;
        }
        gaps[g] = last;
    }
}

// Fills the table of gaps: how far values reach is noted where their adds return, and swept.
pub(crate) fn fill_gaps(reached: &Reached, gaps: &mut Positions)
    requires { Cleared max_positions gaps.old }
    ensures { Uncovered (history_in reached.now.matched.history) reached.now.reach.now reached.now.matched.history.end gaps.new }
{
    let h = &reached.matched.history;
    note_returns(h, reached.reach, gaps);
    sweep(h.end, gaps);
}
