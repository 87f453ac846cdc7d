// The search for a legal order: the lowest-numbered operation that may be placed next is placed, until nothing is left. specs/Searching.antt says
// what is kept. That this finds an order if there is one is said and proved in the crate violations.
ghost use Rattle.std.specs.Prelude.{ℕ, ◌≤◌, ◌<◌, length, get_or};
ghost use Rattle.reader.specs.Log.{max_records};
ghost use Rattle.history.specs.Answers.{Decides};
ghost use Rattle.history.specs.Linearization.{Listed};
ghost use Rattle.violations.specs.Search.{Single};
ghost use Rattle.violations.specs.Greedy.{Due};
ghost use Rattle.matching.specs.Answers.{FirstIn};
ghost use Rattle.matching.specs.View.{history_in};
ghost use Rattle.search.specs.Bounds.{limit_at, BoundTable};
ghost use Rattle.search.specs.Searching.{Limits, LeastOf, LeastReturn, Room, AdmittedOne, Admitted, Fit, Queues, Placed, Ends};

use crate::bounds::Bounds;
use history::operations::{ADD, EMPTY_REMOVE, REMOVE};
use matching::values::Numbers;
use matching::view::{History, Reached};
use reader::format::MAX_RECORDS;
use table::table::{Table, push, remove};

// How far the search has come: the operations below `next` have been enabled, and so many of them wait to be placed; the queue lies from
// `head` up to `tail`; so many operations are placed. At the start all are 0.
#[derive(Clone, Copy, Default)]
pub struct Stand {
    pub next: usize,
    pub waiting: usize,
    pub head: usize,
    pub tail: usize,
    pub placed: usize,
}

// Which operations wait, as the next ones are let in: the first that was not yet enabled, how many wait, and their least return.
#[derive(Clone, Copy)]
pub struct Admission {
    pub next: usize,
    pub waiting: usize,
    pub least: u32,
}

// Whether the judge lists an operation: it has returned, or its value was removed.
fn is_due(reached: &Reached, o: usize) -> bool
    requires { o < reached.now.matched.history.count }
    ensures { Decides (Due (history_in reached.now.matched.history) o) result }
{
    let h = &reached.matched.history;
    if h.returned(o) < h.end as u32 {
        return true;
    }
    reached.reach[o] < h.end as u32
}

// The least return of the operations that wait, the end if none does.
fn least_return(h: &History, waiting: &[u16]) -> u32
    requires { (o : ℕ) → Listed waiting.now o → o < h.now.count }
    ensures { LeastReturn (history_in h.now) waiting.now result }
{
    let mut least = h.end as u32;
    for &o in waiting {
        least = least.min(h.returned(o as usize));
    }
    least
}

// Whether the next operation is enabled: it is called before the least return of those that wait.
fn is_enabled(h: &History, a: Admission) -> bool
    ensures { Decides ((a.next < h.now.count) × ((history_in h.now).call a.next < a.least)) result }
{
    if h.count <= a.next {
        return false;
    }
    h.call(a.next) < a.least
}

// Lets the next operation wait, if the judge lists it. That may make the least return earlier.
fn admit_next(reached: &Reached, a: Admission, waiting: &mut Table) -> Admission
    requires { Room (history_in reached.now.matched.history) a.next a.waiting waiting.old
        × (a.next < reached.now.matched.history.count)
        × ((history_in reached.now.matched.history).call a.next < a.least) }
    ensures { AdmittedOne (history_in reached.now.matched.history) a waiting.old result waiting.new }
{
    let next = a.next;
    if !is_due(reached, next) {
        return Admission {
            next: next + 1,
            ..a
        };
    }
    push(waiting, a.waiting, next as u16);
    Admission {
        next: next + 1,
        waiting: a.waiting + 1,
        least: a.least.min(reached.matched.history.returned(next)),
    }
}

// Moves every enabled operation onto the waiting list: those called before the least return of what is left, in the order of their calls. Once all
// operations have been enabled, the least return is not needed.
fn admit(reached: &Reached, s: Stand, waiting: &mut Table) -> Stand
    requires { Room (history_in reached.now.matched.history) s.next s.waiting waiting.old }
    ensures { Admitted (history_in reached.now.matched.history) s waiting.old result waiting.new }
{
    let h = &reached.matched.history;
    if h.count <= s.next {
        return s;
    }
    let mut a = Admission {
        next: s.next,
        waiting: s.waiting,
        least: least_return(h, &waiting[..s.waiting]),
    };
    while is_enabled(h, a) {
        a = admit_next(reached, a, waiting);
    }
    Stand {
        next: a.next,
        waiting: a.waiting,
        ..s
    }
}

// The least limit of the operations that are left: of those that wait, and of those that are not enabled yet.
fn cap_of(limit: &Numbers, bound: &Bounds, waiting: &[u16], next: usize) -> u32
    requires { (next ≤ max_records) × ((o : ℕ) → Listed waiting.now o → o < max_records) }
    ensures { LeastOf (limit_at limit.now) (get_or bound.now next 0) waiting.now result }
{
    let mut cap = bound[next];
    for &o in waiting {
        cap = cap.min(limit[o as usize]);
    }
    cap
}

// Whether an operation that waits may be placed.
fn fits(reached: &Reached, queue: &[u16], cap: u32, o: usize) -> bool
    requires { ((p : ℕ) → Listed queue.now p → p < reached.now.matched.history.count) × (o < reached.now.matched.history.count) }
    ensures { Decides (Fit (history_in reached.now.matched.history) reached.now.reach.now queue.now cap o) result }
{
    let h = &reached.matched.history;
    match h.kind(o) {
        ADD => reached.reach[o] < cap,
        REMOVE => match queue.first() {
            Some(&front) => h.value(front as usize) == h.value(o),
            None => false,
        },
        EMPTY_REMOVE => queue.is_empty(),
        _ => false,
    }
}

// Where the first operation that may be placed waits, if one may.
fn first_fit(reached: &Reached, queue: &[u16], waiting: &[u16], cap: u32) -> Option<usize>
    requires { ((p : ℕ) → Listed queue.now p → p < reached.now.matched.history.count)
        × ((o : ℕ) → Listed waiting.now o → o < reached.now.matched.history.count) }
    ensures { FirstIn (λ i. Fit (history_in reached.now.matched.history) reached.now.reach.now queue.now cap (get_or waiting.now i 0)) (length waiting.now) result }
{
    for (i, &o) in waiting.iter().enumerate() {
        if fits(reached, queue, cap, o as usize) {
            return Some(i);
        }
    }
    None
}

// Runs an operation of this kind on the queue: an add goes to its back, a remove takes its front.
fn serve(kind: u32, o: u16, s: Stand, queue: &mut Table) -> Stand
    requires { (s.head ≤ s.tail) × (s.tail < max_records) × (1 ≤ s.waiting) × (s.placed < max_records) }
    ensures { Queues kind o s queue.old result queue.new }
{
    let served = Stand {
        waiting: s.waiting - 1,
        placed: s.placed + 1,
        ..s
    };
    match kind {
        ADD => {
            push(queue, s.tail, o);
            Stand {
                tail: s.tail + 1,
                ..served
            }
        }
        REMOVE => Stand {
            head: s.head + 1,
            ..served
        },
        _ => served,
    }
}

// Places the operation that waits at an index: it goes behind the order, and is run on the queue.
fn place(
    h: &History,
    s: Stand,
    i: usize,
    waiting: &mut Table,
    queue: &mut Table,
    list: &mut Numbers,
) -> Stand
    requires { Room (history_in h.now) s.next s.waiting waiting.old × (i < s.waiting) × (s.head ≤ s.tail) × (s.tail ≤ s.placed) × (s.placed < max_records) }
    ensures { Placed (history_in h.now) s i waiting.old queue.old list.old result waiting.new queue.new list.new }
{
    let o = waiting[i];
    let placed = s.placed;
    remove(waiting, s.waiting, i);
    list[placed] = o as u32;
    serve(h.kind(o as usize), o, s, queue)
}

// Searches for an order and lists it. Answers how many operations are placed, or none if something is left that may not be placed.
pub(crate) fn search(
    reached: &Reached,
    limit: &Numbers,
    bound: &Bounds,
    list: &mut Numbers,
) -> Option<usize>
    requires { Single (history_in reached.now.matched.history)
        × Limits (history_in reached.now.matched.history) limit.now
        × BoundTable reached.now.matched.history.count reached.now.matched.history.end limit.now 0 bound.now }
    ensures { Ends (history_in reached.now.matched.history) reached.now.reach.now limit.now result list.new }
{
    let h = &reached.matched.history;
    let mut waiting = [0u16; MAX_RECORDS];
    let mut queue = [0u16; MAX_RECORDS];
    let mut s = Stand::default();
    loop {
        s = admit(reached, s, &mut waiting);
        if s.waiting == 0 {
            return Some(s.placed);
        }
        let waiters = &waiting[..s.waiting];
        let cap = cap_of(limit, bound, waiters, s.next);
        let i = first_fit(reached, &queue[s.head..s.tail], waiters, cap)?;
        s = place(h, s, i, &mut waiting, &mut queue, list);
    }
}
