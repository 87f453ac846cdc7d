// Which operations of a log are kept. What is right is said in specs/Projection.antt, what the code keeps of it in specs/Marks.antt.
ghost use Rattle.std.specs.Prelude.{◌≡◌, ◌<◌};
ghost use Rattle.projection.specs.Marks.{keeps_in, KeptAre};

use history::operations::{EMPTY_REMOVE, NO_KIND};
use matching::view::History;
use reader::format::MAX_RECORDS;
use table::table::is_in;

// For each operation, or for each record, whether it is kept.
pub type Marks = [bool; MAX_RECORDS];

// Whether an operation is kept: what has no kind never is, an empty remove is by its number, any other operation by its value.
fn keeps(h: &History, o: usize, empties: &[u32], values: &[u32]) -> bool
    requires { o < h.now.count }
    ensures { result ≡ keeps_in h.now.table.now empties.now values.now o }
{
    let kind = h.kind(o);
    if kind == NO_KIND {
        return false;
    }
    if kind == EMPTY_REMOVE {
        return is_in(o as u32, empties);
    }
    is_in(h.value(o), values)
}

// Notes for each operation of the table whether it is kept.
pub(crate) fn keep(h: &History, empties: &[u32], values: &[u32], kept: &mut Marks)
    ensures { KeptAre h.now.table.now h.now.count empties.now values.now kept.new }
{
    for o in 0..h.count {
        kept[o] = keeps(h, o, empties, values);
    }
}
