// One step of the search, shown to programs in C and Rust.
ghost use Rattle.std.specs.Prelude.{◌≡◌};
ghost use Rattle.looking.specs.Looking.{looked, answer_of, Leaves};
ghost use Rattle.library.specs.Code.{look_code};

use looking::Seen;
use reader::Refusal;

// An answer as seven numbers.
fn look_code(a: Result<Seen, Refusal>) -> [u64; 7]
    ensures { result ≡ look_code a }
{
    match a {
        Err(refused) => [
            refused.reason.number() as u64,
            refused.place as u64,
            0,
            0,
            0,
            0,
            0,
        ],
        Ok(seen) => [
            0,
            0,
            seen.path as u64,
            seen.moves as u64,
            seen.blocks as u64,
            seen.others as u64,
            seen.bits,
        ],
    }
}

pub fn lavkkesto_look(
    s: &[u8],
    cells: &[usize],
    lens: &[usize; 16],
    path: &mut [usize],
    moves: &mut [usize],
    kept: &mut [usize],
    ranks: &mut [u64],
    code: &mut [u64; 7],
)
    ensures answer { code.new ≡ look_code (answer_of (looked s.now cells.now lens.now path.old moves.old kept.old ranks.old)) }
    ensures left { Leaves (looked s.now cells.now lens.now path.old moves.old kept.old ranks.old) path.old moves.old kept.old ranks.old path.new moves.new kept.new ranks.new }
{
    let lengths = *lens;
    let a = looking::look(s, cells, lengths, path, moves, kept, ranks);
    *code = look_code(a);
}
