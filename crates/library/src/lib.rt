// The calls for programs in C and Rust, which `library_c` exports. An answer is told as numbers.
#![tactic(auto)]

pub mod checked;
pub mod decoded;
pub mod improved;
pub mod looked;
pub mod timed;

ghost use Rattle.std.specs.Prelude.{◌≡◌};
ghost use Rattle.library.specs.Code.{code_of};

use calls::Sheet;
use reader::Refusal;

// The answer of a call that writes a sheet, as four numbers.
fn code_of(a: Result<Sheet, Refusal>) -> [u64; 4]
    ensures { result ≡ code_of a }
{
    match a {
        Err(refused) => [refused.reason.number() as u64, refused.place as u64, 0, 0],
        Ok(sheet) => [0, 0, sheet.rows as u64, sheet.bits],
    }
}
