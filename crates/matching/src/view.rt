// The history of a log as the table of its operations holds it, and what is found of its values. specs/View.antt says which history it is.
ghost use Rattle.std.specs.Prelude.{◌≡◌, ◌<◌};
ghost use Rattle.history.specs.Table.{tabled};
ghost use Rattle.matching.specs.Held.{Held};
ghost use Rattle.matching.specs.Matching.{Partners, PartnerOf};
ghost use Rattle.matching.specs.Reaches.{Reaching};

use crate::values::Numbers;
use history::operations::{Operations, call_of, kind_of, return_of, value_of};

// A history: its operations stand in a table, how many they are, and the end, which is above every position.
#[derive(Clone, Copy)]
pub struct History<'a> {
    pub table: &'a Operations,
    pub count: usize,
    pub end: usize,
    ghost held: { Held (tabled count end table.now) },
}

impl<'a> History<'a> {
    ghost use Rattle.matching.specs.View.{history_in};

    // The kind of an operation.
    pub fn kind(&self, o: usize) -> u32
        requires { o < self.now.count }
        ensures { result ≡ (history_in self.now).kind o }
    {
        kind_of(self.table, o)
    }

    // The value of an operation, or 0 if it has none.
    pub fn value(&self, o: usize) -> u32
        requires { o < self.now.count }
        ensures { result ≡ (history_in self.now).value o }
    {
        value_of(self.table, o)
    }

    // The position of an operation's call.
    pub fn call(&self, o: usize) -> u32
        requires { o < self.now.count }
        ensures { result ≡ (history_in self.now).call o }
    {
        call_of(self.table, o)
    }

    // The position of an operation's return, or the end if it has not returned.
    pub fn returned(&self, o: usize) -> u32
        requires { o < self.now.count }
        ensures { result ≡ (history_in self.now).ret o }
    {
        return_of(self.table, o)
    }
}

// A history whose removes are matched with the adds of their values. In the table of partners stands for a remove a number 1 above the add of its
// value, for an add 1 above the latest remove of its value, or 0 where there is none.
#[derive(Clone, Copy)]
pub struct Matched<'a> {
    pub history: History<'a>,
    pub partner: &'a Numbers,
    ghost partners: { Partners history.table.now history.count partner.now },
}

impl<'a> Matched<'a> {
    // The add of the value of a remove, or the latest remove of the value of an add, if there is one.
    pub fn partner_of(&self, o: usize) -> Option<usize>
        requires { o < self.now.history.count }
        ensures { PartnerOf self.now.history.count self.now.partner.now o result }
    {
        let above = self.partner[o] as usize;
        if above == 0 {
            return None;
        }
        Some(above - 1)
    }
}

// A matched history, and how far the values of its adds reach. The fact stands in ∥ ∥₁, since an add whose value is removed twice has two reasons
// to reach as far; `reaching_kept` of proofs/Reaching.antt has it whole.
#[derive(Clone, Copy)]
pub struct Reached<'a> {
    pub matched: Matched<'a>,
    pub reach: &'a Numbers,
    ghost reaching: { ∥ Reaching (tabled matched.history.count matched.history.end matched.history.table.now) reach.now ∥₁ },
}
