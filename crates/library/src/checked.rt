// The sheet check.
ghost use Rattle.std.specs.Prelude.{◌≡◌};
ghost use Rattle.checking.specs.Checking.{checked};
ghost use Rattle.library.specs.Code.{check_code};

use reader::Refusal;
use sheet::Verdict;

// The check's answer as three numbers.
fn check_code(a: Result<Verdict, Refusal>) -> [u64; 3]
    ensures { result ≡ check_code a }
{
    match a {
        Err(refused) => [refused.reason.number() as u64, 0, refused.place as u64],
        Ok(Verdict::Accepted) => [0, 0, 0],
        Ok(Verdict::Bad(rule, row)) => [0, rule.number() as u64, row as u64],
        Ok(Verdict::Missing(activity)) => [0, 10, activity as u64],
    }
}

pub fn lavkkesto_check(s: &[u8], rows: &[i64], code: &mut [u64; 3])
    ensures { code.new ≡ check_code (checked s.now rows.now) }
{
    let a = checking::check(s, rows);
    *code = check_code(a);
}
