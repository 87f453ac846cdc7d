// The first pattern that occurs in the history in a table: patterns 1 to 3 as values are matched, and 4 to 6 where no order is found.
// specs/Finding.antt says what is found.
ghost use Rattle.history.specs.Object.{Queue};
ghost use Rattle.violations.specs.Violations.{NoViolation};
ghost use Rattle.matching.specs.View.{history_in};
ghost use Rattle.patterns.specs.Pattern.{number_of, number_in, listed_in, Listed};
ghost use Rattle.patterns.specs.Finding.{PatternListed};
ghost use Rattle.patterns.specs.Views.{UnsignedIn, SignedIn, SoonestIn, InTurnIn, PairedIn};

use crate::blocked::{blocked_by, fill_soonest, first_blocking};
use crate::chain::false_empty;
use crate::pattern::Pattern;
use crate::signs::{first_showing, removed_again};
use matching::returns::{POSITIONS, Positions};
use matching::values::Numbers;
use matching::view::{Matched, Reached};

// A pattern, and how many operations it lists.
#[derive(Clone, Copy)]
pub struct Finding {
    pub pattern: Pattern,
    pub listed: usize,
}

// One of the patterns 1 to 3, by the partners of the removes, if one of them occurs.
pub fn find_sign(matched: &Matched, list: &mut Numbers) -> Option<Finding>
    ensures { SignedIn matched.now (number_in result) (listed_in result) list.new }
{
    if let Some(unknown) = first_showing(matched, Pattern::Unknown) {
        list[0] = unknown as u32;
        return Some(Finding {
            pattern: Pattern::Unknown,
            listed: 1,
        });
    }
    if let Some(twice) = first_showing(matched, Pattern::Twice) {
        list[0] = twice as u32;
        list[1] = removed_again(matched, twice).unwrap() as u32;
        return Some(Finding {
            pattern: Pattern::Twice,
            listed: 2,
        });
    }
    if let Some(early) = first_showing(matched, Pattern::Early) {
        list[0] = early as u32;
        list[1] = matched.partner[early] - 1;
        return Some(Finding {
            pattern: Pattern::Early,
            listed: 2,
        });
    }
    None
}

// Pattern 4 or 5, the lowest pair of adds that shows it. Answers how many operations are listed, if one shows it.
fn find_pair(
    reached: &Reached,
    soonest: &Positions,
    pattern: Pattern,
    list: &mut Numbers,
) -> Option<usize>
    requires { UnsignedIn reached.now.matched × SoonestIn reached.now.matched soonest.now × InTurnIn reached.now (number_of pattern) }
    ensures { Listed (λ k. PairedIn reached.now (number_of pattern) k list.new) result }
{
    let a = first_blocking(reached, soonest, pattern)?;
    let b = blocked_by(reached, a).unwrap();
    let partner = reached.matched.partner;
    list[0] = a as u32;
    list[1] = b as u32;
    list[2] = partner[b] - 1;
    if pattern == Pattern::Stuck {
        return Some(3);
    }
    list[3] = partner[a] - 1;
    Some(4)
}

// One of the patterns 4 to 6, where the search for an order has stopped short.
#[inline(never)]
pub fn find_cause(reached: &Reached, list: &mut Numbers) -> Finding
    requires { UnsignedIn reached.now.matched × (NoViolation Queue (history_in reached.now.matched.history) → ⊥) }
    ensures { PatternListed (history_in reached.now.matched.history) (number_of result.pattern) result.listed list.new }
{
    let mut soonest = [0u32; POSITIONS];
    fill_soonest(&reached.matched, &mut soonest);
    if let Some(listed) = find_pair(reached, &soonest, Pattern::Stuck, list) {
        return Finding {
            pattern: Pattern::Stuck,
            listed,
        };
    }
    if let Some(listed) = find_pair(reached, &soonest, Pattern::Overtaken, list) {
        return Finding {
            pattern: Pattern::Overtaken,
            listed,
        };
    }
    Finding {
        pattern: Pattern::FalseEmpty,
        listed: false_empty(reached, list).unwrap(),
    }
}
