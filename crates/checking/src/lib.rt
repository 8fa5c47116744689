// The public call of the sheet check. It tests its own input and asks nothing of its caller.
#![tactic(auto)]

ghost use Rattle.std.specs.Prelude.{◌≡◌};
ghost use Rattle.checking.specs.Checking.{checked};

use reader::Refusal;
use sheet::Verdict;

// Checks a sheet of a plan: rows of four numbers each, activity, machine, start and end, one after the other. Any numbers may stand there.
pub fn check(s: &[u8], rows: &[i64]) -> Result<Verdict, Refusal>
    ensures { result ≡ checked s.now rows.now }
{
    let mut table = intake::table_room();
    let z = intake::take_in(s, &mut table)?;
    Ok(sheet::check_sheet(s, z, &table, rows))
}
