// Tables of which the first `count` entries are in use: an entry put in at the end or taken out. What they hold is said by lists, in
// specs/Table.antt. And a search through a list.
ghost use Rattle.std.specs.Prelude.{◌≡◌, ◌-◌, ◌<◌, length, take};
ghost use Rattle.table.specs.Table.{table_size, is_in, without, Fits, Pushed};

// As many entries as a log may have records.
pub const SIZE: usize = 1024;

// Clients, operations and codes of calls are below 65,536.
pub type Table = [u16; SIZE];

// Whether x is in a list.
#[tactic(auto, using(crate::proofs::Lists::is_in_any))]
pub fn is_in(x: u32, list: &[u32]) -> bool
    ensures { result ≡ is_in x list.now }
{
    list.contains(&x)
}

// Puts x behind the entries in use.
pub fn push(table: &mut Table, count: usize, x: u16)
    requires { (count < table_size) × (length table.old ≡ table_size) }
    ensures { Pushed count x table.old table.new }
{
    table[count] = x;
}

// Takes out the entry at an index, and moves those behind it up.
pub fn remove(table: &mut Table, count: usize, index: usize)
    requires { (index < count) × Fits count table.old }
    ensures { (take (count - 1) table.new ≡ without index (take count table.old)) × (length table.new ≡ table_size) }
{
    table.copy_within(index + 1..count, index);
}
