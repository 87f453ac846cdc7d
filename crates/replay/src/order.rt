// Whether an order is legal for a history: its operations are placed one after the other, in time that is linear in the order and
// the operations. What is legal is said in the history's specs/Linearization.antt, what the code keeps in specs/Trial.antt.
ghost use Rattle.std.specs.Prelude.{◌≡◌, true, ◌≤◌, ◌<◌, length};
ghost use Rattle.reader.specs.Log.{max_records};
ghost use Rattle.history.specs.Answers.{Decides};
ghost use Rattle.history.specs.Linearization.{Linearization};
ghost use Rattle.history.specs.Object.{Queue};
ghost use Rattle.history.specs.Positions.{max_positions};
ghost use Rattle.history.specs.Sheet.{listed_on, is_order_sheet};
ghost use Rattle.history.specs.Table.{tabled};
ghost use Rattle.replay.specs.Trial.{Unmarked, Room, Serves, StepsIn, TriedIn, ReturnIsMarked, AllMarked};

use history::operations::{
    ADD, EMPTY_REMOVE, NO_KIND, Operations, REMOVE, call_of, kind_of, return_of, value_of,
};
use history::sheet::{listed_on, operation_at};
use reader::format::MAX_RECORDS;

// How far an order has been run: the latest call among the operations placed, and where the queue's front and back are. At the
// start all are 0.
#[derive(Clone, Copy, Default)]
pub struct Progress {
    pub latest: u32,
    pub head: usize,
    pub tail: usize,
}

// For each operation whether it is placed.
type Marks = [bool; MAX_RECORDS];

// The values that were put in, of which those from `head` up to `tail` wait.
type Queue = [u32; MAX_RECORDS];

// Runs an operation of this kind and value on the queue, or answers none if it cannot be run.
fn serve(kind: u32, value: u32, p: Progress, queue: &mut Queue) -> Option<Progress>
    requires { (p.head ≤ p.tail) × (p.tail < max_records) × (length queue.old ≡ max_records) }
    ensures { Serves kind value p queue.old result queue.new }
{
    let head = p.head;
    let tail = p.tail;
    match kind {
        ADD => {
            queue[tail] = value;
            Some(Progress {
                tail: tail + 1,
                ..p
            })
        }
        REMOVE => {
            if head == tail {
                return None;
            }
            let front = queue[head];
            if front != value {
                return None;
            }
            Some(Progress {
                head: head + 1,
                ..p
            })
        }
        EMPTY_REMOVE => {
            if head != tail {
                return None;
            }
            Some(p)
        }
        // A remove that has not returned takes the front value if there is one and otherwise changes nothing.
        NO_KIND => {
            if head == tail {
                return Some(p);
            }
            let next = head + 1;
            Some(Progress { head: next, ..p })
        }
        _ => None,
    }
}

// Places an operation behind those that are marked, or answers none if no legal order has it there.
fn place(
    table: &Operations,
    count: usize,
    o: usize,
    p: Progress,
    marks: &mut Marks,
    queue: &mut Queue,
) -> Option<Progress>
    requires { Room count p marks.old queue.old }
    ensures { StepsIn count table.now o p marks.old queue.old result marks.new queue.new }
{
    // There is no such operation.
    if count <= o {
        return None;
    }
    // It was placed before.
    if marks[o] {
        return None;
    }
    // It precedes one that was placed.
    let latest = p.latest;
    if return_of(table, o) < latest {
        return None;
    }
    marks[o] = true;
    let q = Progress {
        latest: latest.max(call_of(table, o)),
        ..p
    };
    serve(kind_of(table, o), value_of(table, o), q, queue)
}

// Places the operations that a sheet lists, one after the other, and marks them. Answers whether all of them could be placed; if
// not, the order is not legal.
fn place_all(table: &Operations, count: usize, sheet: &[u8], marks: &mut Marks) -> bool
    requires { (count ≤ max_records) × (is_order_sheet sheet.now ≡ true) × Unmarked marks.old }
    ensures { TriedIn count table.now (listed_on sheet.now) marks.new result }
{
    let mut queue = [0u32; MAX_RECORDS];
    let mut p = Progress::default();
    for i in 0..listed_on(sheet) {
        let o = operation_at(sheet, i);
        let Some(q) = place(table, count, o, p, marks, &mut queue) else {
            return false;
        };
        p = q;
    }
    true
}

// Whether an operation is marked if it has returned; one that is pending may be left out.
fn marked_if_returned(table: &Operations, end: usize, o: usize, marks: &Marks) -> bool
    requires { (end ≤ max_positions) × (o < max_records) }
    ensures { Decides (ReturnIsMarked end table.now marks.now o) result }
{
    end as u32 <= return_of(table, o) || marks[o]
}

// Whether every returned operation is marked.
fn all_marked(table: &Operations, count: usize, end: usize, marks: &Marks) -> bool
    requires { (count ≤ max_records) × (end ≤ max_positions) }
    ensures { Decides (AllMarked (tabled count end table.now) marks.now) result }
{
    for o in 0..count {
        if !marked_if_returned(table, end, o, marks) {
            return false;
        }
    }
    true
}

// Whether the order that a sheet lists is legal for the history that the table holds.
pub(crate) fn is_linearization(table: &Operations, count: usize, end: usize, sheet: &[u8]) -> bool
    requires { (count ≤ max_records) × (end ≤ max_positions) × (is_order_sheet sheet.now ≡ true) }
    ensures { Decides (Linearization Queue (tabled count end table.now) (listed_on sheet.now)) result }
{
    let mut marks = [false; MAX_RECORDS];
    if !place_all(table, count, sheet, &mut marks) {
        return false;
    }
    all_marked(table, count, end, &marks)
}
