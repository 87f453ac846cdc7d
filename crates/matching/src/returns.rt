// A number of each add is noted at the position of its return. specs/Returns.antt says what is noted.
ghost use Rattle.history.specs.Positions.{max_positions};
ghost use Rattle.matching.specs.Matching.{Cleared};
ghost use Rattle.matching.specs.Returns.{ReturnsNoted};
ghost use Rattle.matching.specs.View.{history_in};

use crate::values::Numbers;
use crate::view::History;
use history::operations::ADD;

// A number for each position: those of 1,024 records and the spare one.
pub const POSITIONS: usize = 1025;

pub type Positions = [u32; POSITIONS];

// Notes the number of each add at the position of its return, the highest where several return.
pub fn note_returns(h: &History, number: &Numbers, noted: &mut Positions)
    requires { Cleared max_positions noted.old }
    ensures { ReturnsNoted (history_in h.now) number.now h.now.count noted.new }
{
    for a in 0..h.count {
        if h.kind(a) == ADD {
            let returned = h.returned(a) as usize;
            if returned < h.end {
                noted[returned] = noted[returned].max(number[a]);
            }
        }
    }
}
