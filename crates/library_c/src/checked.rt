// The sheet check.
ghost use Rattle.std.specs.Prelude.{◌≡◌};
ghost use Rattle.checking.specs.Checking.{checked};
ghost use Rattle.library.specs.Code.{check_code};

#[unsafe(no_mangle)]
pub extern "C" fn lavkkesto_check(s: &[u8], rows: &[i64], code: &mut [u64; 3])
    ensures { code.new ≡ check_code (checked s.now rows.now) }
{
    library::checked::lavkkesto_check(s, rows, code);
}
