// What a step looks at: the critical path, the tails, and from them the moves to try.
ghost use Rattle.std.specs.Prelude.{◌≡◌, ◌<◌, length, drop};
ghost use Rattle.words.specs.Words.{words};
ghost use Rattle.plan.specs.Input.{problem_of};
ghost use Rattle.lines.specs.Lines.{lines_in};
ghost use Rattle.lines.specs.Linking.{LinesHeld, links_of};
ghost use Rattle.timing.specs.Placing.{Timed};
ghost use Rattle.path.specs.Placing.{placed};
ghost use Rattle.path.specs.Path.{critical_path};
ghost use Rattle.path.specs.Tails.{tails};
ghost use Rattle.ranking.specs.Ranking.{ranked};
ghost use Rattle.reassign.specs.Reassignments.{flexible};
ghost use Rattle.search.specs.Step.{placing_of, blocks_by, others_by};
ghost use Rattle.search.specs.Asked.{Lined, Space};
ghost use Rattle.trial.specs.Trial.{Ready, AllAllowed};

use crate::Moves;
use plan::Layout;

// Writes the path from the place answered on, and the tails. The links are those of the lines.
pub fn survey(
    s: &[u8],
    z: Layout,
    table: &[usize],
    ways: &[[u32; 16]; 16],
    cells: &[usize],
    lens: [usize; 16],
    order: &[usize],
    starts: &[u64],
    ends: &[u64],
    before: &[usize],
    after: &[usize],
    machines: &[usize],
    places: &[usize],
    path: &mut [usize],
    tail: &mut [u64],
) -> usize
    requires ready { Ready s.now z table.now ways.now × Lined z.activities z.machines cells.now lens × Timed (problem_of (words s.now) z) (lines_in cells.now lens) order.now starts.now ends.now }
    requires lines_held { LinesHeld z.activities (lines_in cells.now lens) (links_of before.now after.now machines.now places.now) × (length before.now ≡ z.activities) × (length after.now ≡ z.activities) × (length machines.now ≡ z.activities) × (length places.now ≡ z.activities) × (length path.old ≡ z.activities) × (length tail.old ≡ z.activities) }
    ensures walked { (drop result path.new ≡ critical_path (problem_of (words s.now) z) (lines_in cells.now lens) (placing_of (problem_of (words s.now) z) (lines_in cells.now lens))) × (result < z.activities) }
    ensures tailed { tail.new ≡ tails (problem_of (words s.now) z) (lines_in cells.now lens) (placing_of (problem_of (words s.now) z) (lines_in cells.now lens)) }
{
    let at = path::critical_path(table, before, machines, ways, order, starts, ends, path);
    path::tails(table, after, order, starts, ends, tail);
    at
}

// The moves to try on timed lines. `choices` says whether any activity has two candidates. The links are those of the lines; path, tail and
// heads are work space.
pub fn find_moves(
    s: &[u8],
    z: Layout,
    table: &[usize],
    ways: &[[u32; 16]; 16],
    choices: bool,
    cells: &[usize],
    lens: [usize; 16],
    order: &[usize],
    starts: &[u64],
    ends: &[u64],
    before: &[usize],
    after: &[usize],
    machines: &[usize],
    places: &[usize],
    path: &mut [usize],
    tail: &mut [u64],
    heads: &mut [u64],
) -> Moves
    requires ready { Ready s.now z table.now ways.now × Lined z.activities z.machines cells.now lens × Timed (problem_of (words s.now) z) (lines_in cells.now lens) order.now starts.now ends.now × (choices ≡ flexible (problem_of (words s.now) z)) }
    requires lines_held { LinesHeld z.activities (lines_in cells.now lens) (links_of before.now after.now machines.now places.now) × Space z.activities before.now after.now machines.now places.now path.old tail.old heads.old }
    ensures blocks { ranked result.blocks ≡ blocks_by (problem_of (words s.now) z) (lines_in cells.now lens) (placing_of (problem_of (words s.now) z) (lines_in cells.now lens)) }
    ensures others { ranked result.others ≡ others_by (problem_of (words s.now) z) (lines_in cells.now lens) (placing_of (problem_of (words s.now) z) (lines_in cells.now lens)) }
    ensures allowed { AllAllowed z.machines (lines_in cells.now lens) result.blocks × AllAllowed z.machines (lines_in cells.now lens) result.others }
{
    let at = survey(
        s, z, table, ways, cells, lens, order, starts, ends, before, after, machines, places, path,
        tail,
    );
    let blocks = blocks::block_moves(
        &path[at..],
        machines,
        places,
        cells,
        &lens,
        table,
        starts,
        ends,
        tail,
        heads,
    );
    let others = reassign::reassignments(
        choices,
        s,
        z,
        table,
        cells,
        &lens,
        machines,
        places,
        starts,
        ends,
        tail,
        &path[at..],
    );
    Moves { blocks, others }
}
