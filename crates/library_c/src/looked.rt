// One step of the search, shown to programs in C and Rust.
ghost use Rattle.std.specs.Prelude.{◌≡◌};
ghost use Rattle.looking.specs.Looking.{looked, answer_of, Leaves};
ghost use Rattle.library.specs.Code.{look_code};

#[unsafe(no_mangle)]
pub extern "C" fn lavkkesto_look(
    s: &[u8],
    cells: &[usize],
    lens: &[usize; 16],
    path: &mut [usize],
    moves: &mut [usize],
    kept: &mut [usize],
    ranks: &mut [u64],
    code: &mut [u64; 7],
)
    ensures answer { code.new ≡ look_code (answer_of (looked s.now cells.now lens.now path.old moves.old kept.old ranks.old)) }
    ensures left { Leaves (looked s.now cells.now lens.now path.old moves.old kept.old ranks.old) path.old moves.old kept.old ranks.old path.new moves.new kept.new ranks.new }
{
    library::looked::lavkkesto_look(s, cells, lens, path, moves, kept, ranks, code);
}
