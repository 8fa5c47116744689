// The runs of a path on one machine at successive positions.
ghost use Rattle.std.specs.Prelude.{◌≡◌, ◌&&◌, suc, ◌+◌, ◌^◌, ◌<◌, eqb, length, get_or};
ghost use Rattle.blocks.specs.BlockMoves.{blocks_by};
ghost use Rattle.blocks.specs.Scanning.{Scanned, Run, moves_in, own_moves_of_all};

// b stands on a's machine, right behind it.
fn follows(machines: &[usize], places: &[usize], a: usize, b: usize) -> bool
    requires { (a < length machines.now) × (b < length machines.now) × (length places.now ≡ length machines.now) × (get_or places.now a 0 < 2 ^ 32) }
    ensures { result ≡ (eqb (get_or machines.now b 0) (get_or machines.now a 0) && eqb (get_or places.now b 0) (suc (get_or places.now a 0))) }
{
    machines[b] == machines[a] && places[b] == places[a] + 1
}

// Where the run ends that begins at place i of the path.
pub fn block_end(path: &[usize], i: usize, machines: &[usize], places: &[usize]) -> usize
    requires { Scanned path.now machines.now places.now × (i < length path.now) }
    ensures { Run (λ a. get_or machines.now a 0) (λ a. get_or places.now a 0) path.now i result }
{
    let mut last = i;
    while last + 1 < path.len() {
        let next = last + 1;
        if !follows(machines, places, path[last], path[next]) {
            return last;
        }
        last = next;
    }
    last
}

// How many moves a run has whose last activity is so far from its first.
fn moves_in(far: usize) -> usize
    requires { far < 2 ^ 32 }
    ensures { result ≡ moves_in far }
{
    if far < 2 {
        return far;
    }
    far + far
}

// How many block moves a path has.
pub fn count_moves(path: &[usize], machines: &[usize], places: &[usize]) -> usize
    requires { Scanned path.now machines.now places.now }
    ensures { result ≡ length (own_moves_of_all (blocks_by (λ a. get_or machines.now a 0) (λ a. get_or places.now a 0) path.now)) }
{
    let mut count = 0;
    let mut i = 0;
    while i < path.len() {
        let last = block_end(path, i, machines, places);
        count += moves_in(last - i);
        i = last + 1;
    }
    count
}
