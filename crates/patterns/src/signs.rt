// What removes show of the patterns 1 to 3, by their partners. specs/Signs.antt says what is found.
ghost use Rattle.std.specs.Prelude.{◌<◌};
ghost use Rattle.history.specs.Answers.{Decides};
ghost use Rattle.matching.specs.Answers.{FirstIn};
ghost use Rattle.patterns.specs.Pattern.{number_of};
ghost use Rattle.patterns.specs.Views.{ShowsIn, AgainIn};

use crate::pattern::Pattern;
use history::operations::REMOVE;
use matching::view::Matched;

// Whether a remove shows a pattern: its value is never added, is removed again by a later remove, or is added only behind its return.
fn shows(matched: &Matched, r: usize, pattern: Pattern) -> bool
    requires { r < matched.now.history.count }
    ensures { Decides (ShowsIn matched.now (number_of pattern) r) result }
{
    let h = &matched.history;
    if h.kind(r) != REMOVE {
        return false;
    }
    let Some(a) = matched.partner_of(r) else {
        return pattern == Pattern::Unknown;
    };
    match pattern {
        Pattern::Twice => matched.partner[a] != r as u32 + 1,
        Pattern::Early => h.returned(r) < h.call(a),
        _ => false,
    }
}

// The lowest remove that shows a pattern, if one does.
pub(crate) fn first_showing(matched: &Matched, pattern: Pattern) -> Option<usize>
    ensures { FirstIn (ShowsIn matched.now (number_of pattern)) matched.now.history.count result }
{
    for r in 0..matched.history.count {
        if shows(matched, r, pattern) {
            return Some(r);
        }
    }
    None
}

// The lowest remove above r with the same partner, if there is one.
pub(crate) fn removed_again(matched: &Matched, r: usize) -> Option<usize>
    requires { r < matched.now.history.count }
    ensures { FirstIn (AgainIn matched.now r) matched.now.history.count result }
{
    for s in r + 1..matched.history.count {
        if matched.history.kind(s) == REMOVE {
            if matched.partner[s] == matched.partner[r] {
                return Some(s);
            }
        }
    }
    None
}
