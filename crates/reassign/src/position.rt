// Positions on one line: between which ones an activity may go, and how long the way through it is at each.
ghost use Rattle.std.specs.Prelude.{◌≡◌, ◌≤◌, ◌<◌, ◌^◌, leb, ltb, length, get_or};
ghost use Rattle.graph.specs.Counting.{Below};
ghost use Rattle.reassign.specs.Reassignments.{leading, line_at, line_before, length_at, spot_of};
ghost use Rattle.reassign.specs.Reassigning.{unordered, Reckoned, Short};

use crate::{Spot, Way};

// How many lead the line that end by a start. This and the next are two, and not one that is handed its test: the search's steps are named,
// with no closures.
pub fn leading_ended(line: &[usize], ends: &[u64], start: u64) -> usize
    requires { Below (length ends.now) line.now }
    ensures { result ≡ leading (λ x. leb (get_or ends.now x 0) start) line.now }
{
    for (i, &x) in line.iter().enumerate() {
        if start < ends[x] {
            return i;
        }
    }
    line.len()
}

// How many lead the line that start before an end.
pub fn leading_begun(line: &[usize], starts: &[u64], end: u64) -> usize
    requires { Below (length starts.now) line.now }
    ensures { result ≡ leading (λ x. ltb (get_or starts.now x 0) end) line.now }
{
    for (i, &x) in line.iter().enumerate() {
        if end <= starts[x] {
            return i;
        }
    }
    line.len()
}

// Who stands at a position.
fn line_at(line: &[usize], i: usize) -> Option<usize>
    ensures { result ≡ line_at line.now i }
{
    if i < line.len() {
        return Some(line[i]);
    }
    None
}

// Who stands before a position.
fn line_before(line: &[usize], i: usize) -> Option<usize>
    ensures { result ≡ line_before line.now i }
{
    if i == 0 {
        return None;
    }
    line_at(line, i - 1)
}

// The length of the way through an activity that is put at a position.
fn length_at(line: &[usize], starts: &[u64], ends: &[u64], tail: &[u64], way: Way, i: usize) -> u64
    requires { Below (length tail.now) line.now × Reckoned starts.now ends.now tail.now × Short way }
    ensures { result ≡ length_at (unordered starts.now ends.now) tail.now line.now way i }
{
    let free = bounds::arrival(line_before(line, i), ends, 0);
    let head = way.head.max(free);
    let rest = path::after_link(line_at(line, i), starts, ends, tail, way.rest);
    head + way.time + rest
}

// The position of least length, the least among equals.
pub fn best_position(
    line: &[usize],
    starts: &[u64],
    ends: &[u64],
    tail: &[u64],
    way: Way,
    first: usize,
    last: usize,
) -> Spot
    requires { Below (length tail.now) line.now × Reckoned starts.now ends.now tail.now × Short way × (first ≤ last) × (last < 2 ^ 62) }
    ensures { result ≡ spot_of (length_at (unordered starts.now ends.now) tail.now line.now way) first last }
{
    let mut place = first;
    let mut length = length_at(line, starts, ends, tail, way, first);
    for i in first + 1..last + 1 {
        let here = length_at(line, starts, ends, tail, way, i);
        if here < length {
            place = i;
            length = here;
        }
    }
    Spot { length, place }
}
