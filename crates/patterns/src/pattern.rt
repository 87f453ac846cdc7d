// The six patterns.

// What rules out every legal order, by its number.
#[derive(Clone, Copy, PartialEq, Eq)]
pub enum Pattern {
    Unknown = 1,
    Twice = 2,
    Early = 3,
    Stuck = 4,
    Overtaken = 5,
    FalseEmpty = 6,
}
