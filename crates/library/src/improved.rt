// Improve, for programs in C and Rust.
ghost use Rattle.std.specs.Prelude.{◌≡◌};
ghost use Rattle.improving.specs.Improving.{improved_in, answer_of, tasks_left, machines_left};
ghost use Rattle.library.specs.Code.{improve_code};

use improving::Ending;
use reader::Refusal;

// An answer as three numbers.
fn improve_code(a: Result<Ending, Refusal>) -> [u64; 3]
    ensures { result ≡ improve_code a }
{
    match a {
        Err(refused) => [refused.reason.number() as u64, refused.place as u64, 0],
        Ok(Ending::NoSteps) => [10, 0, 0],
        Ok(Ending::Incomplete) => [11, 0, 0],
        Ok(Ending::Contradictory) => [12, 0, 0],
        Ok(Ending::NothingBetter(bits)) => [13, 0, bits],
        Ok(Ending::Better(bits)) => [14, 0, bits],
    }
}

pub fn lavkkesto_improve(
    s: &[u8],
    cells: &mut [usize],
    tasks: &mut [usize],
    machines: &mut [usize],
    code: &mut [u64; 3],
)
    ensures answer { code.new ≡ improve_code (answer_of (improved_in s.now cells.old tasks.old machines.old)) }
    ensures tasks { tasks.new ≡ tasks_left (improved_in s.now cells.old tasks.old machines.old) tasks.old }
    ensures machines { machines.new ≡ machines_left (improved_in s.now cells.old tasks.old machines.old) machines.old }
{
    let a = improving::improve(s, cells, tasks, machines);
    *code = improve_code(a);
}
