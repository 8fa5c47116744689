// Improve, for programs in C and Rust.
ghost use Rattle.std.specs.Prelude.{◌≡◌};
ghost use Rattle.improving.specs.Improving.{improved_in, answer_of, tasks_left, machines_left};
ghost use Rattle.library.specs.Code.{improve_code};

#[unsafe(no_mangle)]
pub extern "C" fn lavkkesto_improve(
    s: &[u8],
    cells: &mut [usize],
    tasks: &mut [usize],
    machines: &mut [usize],
    code: &mut [u64; 3],
)
    ensures answer { code.new ≡ improve_code (answer_of (improved_in s.now cells.old tasks.old machines.old)) }
    ensures tasks { tasks.new ≡ tasks_left (improved_in s.now cells.old tasks.old machines.old) tasks.old }
    ensures machines { machines.new ≡ machines_left (improved_in s.now cells.old tasks.old machines.old) machines.old }
{
    library::improved::lavkkesto_improve(s, cells, tasks, machines, code);
}
