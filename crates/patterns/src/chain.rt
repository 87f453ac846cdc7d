// Pattern 6: the values that cover all gaps of an empty remove. specs/Chains.antt says what is found.
ghost use Rattle.std.specs.Prelude.{◌≡◌, ◌≤◌, length};
ghost use Rattle.history.specs.Positions.{max_positions};
ghost use Rattle.history.specs.History.{empty_remove};
ghost use Rattle.violations.specs.Violations.{Is};
ghost use Rattle.matching.specs.View.{history_in};
ghost use Rattle.patterns.specs.Pattern.{Listed};
ghost use Rattle.patterns.specs.Chains.{Ranked, RanksNoted, NextTable, Chained, FirstChained};

use history::operations::{ADD, EMPTY_REMOVE};
use matching::returns::{POSITIONS, Positions, note_returns};
use matching::values::Numbers;
use matching::view::{History, Reached};
use reader::format::MAX_RECORDS;

// Operations are numbered below this, so that a rank says both how far a value reaches and which add it belongs to.
const RANKS: u32 = MAX_RECORDS as u32;

// The highest number that an operation may have.
const LAST: u32 = RANKS - 1;

// Fills the ranks of the adds. The further a value reaches, the higher its add ranks; of several that reach equally far, the lowest add ranks
// highest.
fn fill_ranks(reached: &Reached, rank: &mut Numbers)
    ensures { Ranked (history_in reached.now.matched.history) reached.now.reach.now reached.now.matched.history.count rank.new }
{
    let h = &reached.matched.history;
    for a in 0..h.count {
        if h.kind(a) == ADD {
            rank[a] = reached.reach[a] * RANKS + (LAST - a as u32);
        }
    }
}

// Fills, for each position, the first one from there on at which something is noted, or the end if there is none. It goes from the last position
// down.
fn fill_next(end: usize, noted: &Positions, next: &mut Positions)
    requires { (end ≤ max_positions) × (length noted.now ≡ max_positions) × (length next.old ≡ max_positions) }
    ensures { NextTable end noted.now 0 next.new }
{
    let mut first = end as u32;
    for p in (0..end).rev() {
        if 0 < noted[p] {
            first = p as u32;
        }
        next[p] = first;
    }
}

// Lists empty remove e and a chain of adds whose values cover its gaps, each the one that reaches furthest from the first gap not yet covered.
// Answers how many operations are listed, if there is no gap that no value covers: the search ends at the first one.
// Values are tried in the order in which their adds return. An add that has returned by one gap has returned by the next, so for the next gap the
// inner loop goes on from where it stopped, with the best rank so far.
fn chain(
    h: &History,
    noted: &Positions,
    next: &Positions,
    e: usize,
    list: &mut Numbers,
) -> Option<usize>
    requires { RanksNoted (history_in h.now) noted.now × NextTable h.now.end noted.now 0 next.now × Is (history_in h.now) empty_remove e }
    ensures { Listed (λ k. Chained (history_in h.now) e k list.new) result }
{
    let until = h.returned(e);
    let mut gap = h.call(e);
    let mut listed = 1;
    list[0] = e as u32;
    let mut from = 0;
    let mut best = 0u32;
    'gaps: loop {
        if until <= gap {
            break Some(listed);
        }
        'adds: loop {
            let returned = next[from];
            if gap < returned {
                // The adds that have returned by this gap were all tried; it is uncovered if none of their values reaches beyond it.
                if best / RANKS <= gap {
                    break 'gaps None;
                }
                break;
            }
            best = best.max(noted[returned as usize]);
            from = returned as usize + 1;
        }
        list[listed] = LAST - best % RANKS;
        gap = best / RANKS;
        listed += 1;
    }
}

// Lists the lowest empty remove all gaps of which are covered, and its chain. Answers how many operations are listed, if there is one.
pub(crate) fn false_empty(reached: &Reached, list: &mut Numbers) -> Option<usize>
    ensures { Listed (λ k. FirstChained (history_in reached.now.matched.history) k list.new) result }
{
    let h = &reached.matched.history;
    let mut rank = [0u32; MAX_RECORDS];
    fill_ranks(reached, &mut rank);
    let mut noted = [0u32; POSITIONS];
    note_returns(h, &rank, &mut noted);
    let mut next = [0u32; POSITIONS];
    fill_next(h.end, &noted, &mut next);
    for e in 0..h.count {
        if h.kind(e) == EMPTY_REMOVE {
            if let Some(listed) = chain(h, &noted, &next, e, list) {
                return Some(listed);
            }
        }
    }
    None
}
