// Which records of a log are those of kept operations. What the code keeps of them is said in specs/Marks.antt.
ghost use Rattle.std.specs.Prelude.{◌≡◌, length};
ghost use Rattle.reader.specs.Log.{max_records};
ghost use Rattle.history.specs.Table.{Whole};
ghost use Rattle.projection.specs.Marks.{MarksAre};

use crate::keep::Marks;
use history::walk::Walk;

// Marks the records of a readable log as their operations are marked.
pub(crate) fn mark(log: &[u8], records: usize, kept: &Marks, marks: &mut Marks)
    requires { Whole log.now records × (length marks.old ≡ max_records) }
    ensures { MarksAre log.now kept.now marks.new }
{
    let mut walk = Walk::new(log, records);
    while let Some(step) = walk.next() {
        marks[step.index] = kept[step.operation];
    }
}
