// A move with its rank, and the best three of them.
ghost use Rattle.std.specs.Prelude.{◌≤◌};

use moves::Move;

// A move with its rank: the length of the longest way that it leaves, and the time by which equal lengths go.
#[derive(Clone, Copy)]
pub struct Rated {
    pub length: u64,
    pub time: u64,
    pub made: Move,
}

// At most three, the best first. What stands past the count is not held.
#[derive(Clone, Copy)]
pub struct Three {
    pub count: usize,
    pub first: Rated,
    pub second: Rated,
    pub third: Rated,
    ghost few: { count ≤ 3 },
}
