// Moves as rows of six numbers, one after the other; all block moves of a path.
ghost use Rattle.std.specs.Prelude.{◌≡◌, ◌∷◌, [], ◌+◌, ◌-◌, ◌^◌, ◌<◌, ◌≤◌, length, get_or};
ghost use Rattle.blocks.specs.BlockMoves.{block, closed, blocks_by, shifts};
ghost use Rattle.blocks.specs.Scanning.{Scanned, Run, own_moves, own_moves_of_all};
ghost use Rattle.looking.specs.Rows.{row_of, rows_of, Put};

use moves::Move;

// Puts a row, and answers the place after it. The kind is a number, as callers in C read it.
fn put_row(
    rows: &mut [usize],
    at: usize,
    kind: usize,
    a: usize,
    b: usize,
    c: usize,
    d: usize,
    e: usize,
) -> usize
    requires { at + 6 ≤ length rows.old }
    ensures { Put (kind ∷ a ∷ b ∷ c ∷ d ∷ e ∷ []) at rows.old rows.new result }
{
    rows[at] = kind;
    rows[at + 1] = a;
    rows[at + 2] = b;
    rows[at + 3] = c;
    rows[at + 4] = d;
    rows[at + 5] = e;
    at + 6
}

// Puts the row of a move.
pub fn put_move(rows: &mut [usize], at: usize, m: Move) -> usize
    requires { at + 6 ≤ length rows.old }
    ensures { Put (row_of m) at rows.old rows.new result }
{
    match m {
        Move::Swap(machine, i) => put_row(rows, at, 0, machine, i, 0, 0, 0),
        Move::Shift(machine, i, j) => put_row(rows, at, 1, machine, i, j, 0, 0),
        Move::Reassign(a, r, i, q, j) => put_row(rows, at, 2, a, r, i, q, j),
    }
}

// Puts the shifts to one position, from each of others in turn.
fn put_shifts(
    rows: &mut [usize],
    at: usize,
    machine: usize,
    to: usize,
    from: usize,
    end: usize,
) -> usize
    requires { (from ≤ end) × (at + length (rows_of (shifts machine to from (end - from))) ≤ length rows.old) }
    ensures { Put (rows_of (shifts machine to from (end - from))) at rows.old rows.new result }
{
    let mut next = at;
    for i in from..end {
        next = put_move(rows, next, Move::Shift(machine, i, to));
    }
    next
}

// Puts the moves of a block, positions first..last of a machine. The two swaps of a block of two are one move.
fn put_block(rows: &mut [usize], at: usize, machine: usize, first: usize, last: usize) -> usize
    requires { (first < last) × (last < 2 ^ 32) × (at + length (rows_of (own_moves (block machine first last))) ≤ length rows.old) }
    ensures { Put (rows_of (own_moves (block machine first last))) at rows.old rows.new result }
{
    let one = put_move(rows, at, Move::Swap(machine, first));
    let next = first + 1;
    if last <= next {
        return one;
    }
    let before = last - 1;
    let two = put_move(rows, one, Move::Swap(machine, before));
    let third = first + 2;
    let behind = last + 1;
    let three = put_shifts(rows, two, machine, first, third, behind);
    put_shifts(rows, three, machine, last, first, before)
}

// Puts the moves of the run from place i to place r of the path; a single activity has none.
fn put_run(
    rows: &mut [usize],
    at: usize,
    path: &[usize],
    i: usize,
    r: usize,
    machines: &[usize],
    places: &[usize],
) -> usize
    requires scanned { Scanned path.now machines.now places.now × (length path.now ≤ 128) × Run (λ a. get_or machines.now a 0) (λ a. get_or places.now a 0) path.now i r }
    requires r_in_bounds { at + length (rows_of (own_moves_of_all (closed (block (get_or machines.now (get_or path.now i 0) 0) (get_or places.now (get_or path.now i 0) 0) (get_or places.now (get_or path.now r 0) 0))))) ≤ length rows.old }
    ensures { Put (rows_of (own_moves_of_all (closed (block (get_or machines.now (get_or path.now i 0) 0) (get_or places.now (get_or path.now i 0) 0) (get_or places.now (get_or path.now r 0) 0))))) at rows.old rows.new result }
{
    let a = path[i];
    let b = path[r];
    let machine = machines[a];
    let first = places[a];
    let last = places[b];
    if last <= first {
        return at;
    }
    put_block(rows, at, machine, first, last)
}

// Puts every block move of a path, and answers how many cells they take. `machines` and `places` say where each activity stands.
pub fn list_moves(rows: &mut [usize], path: &[usize], machines: &[usize], places: &[usize]) -> usize
    requires { Scanned path.now machines.now places.now × (length path.now ≤ 128) × (1536 ≤ length rows.old) }
    ensures { Put (rows_of (own_moves_of_all (blocks_by (λ a. get_or machines.now a 0) (λ a. get_or places.now a 0) path.now))) 0 rows.old rows.new result }
{
    let mut at = 0;
    let mut i = 0;
    while i < path.len() {
        let last = blocks::block_end(path, i, machines, places);
        at = put_run(rows, at, path, i, last, machines, places);
        i = last + 1;
    }
    at
}
