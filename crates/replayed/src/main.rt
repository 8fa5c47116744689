// Takes plans from standard input, one after the other, each after its length in bytes as a little-endian word, and prints for each what the
// terminal shows for it.
#![tactic(auto)]

ghost use Rattle.std.specs.Prelude.{IfOk, OnErr};
ghost use Rattle.stream.specs.Stream.{Loses};
ghost use Rattle.replayed.specs.Replayed.{Replayed, Failed, Prints};

use std::io;
use std::io::{Read, Write};

fn main(rt: HostRuntime) -> io::Result<()> {
    let mut input = rt.stdin();
    let mut out = rt.stdout();
    let mut space = [0u8; 65536];
    let plan: &mut [u8] = &mut space;
    let mut room = [0u8; 16384];
    let text: &mut [u8] = &mut room;
    // So many plans are enough for any run.
    for _ in 0..100_000_000usize {
        if !replay_one(&mut input, &mut out, plan, text)? {
            return Ok(());
        }
    }
    Ok(())
}

// Prints what is shown for one plan, unless the input has ended.
fn replay_one<R: Read, W: Write>(
    input: &mut R,
    out: &mut W,
    plan: &mut [u8],
    text: &mut [u8],
) -> io::Result<bool>
    ensures ok { IfOk result (λ went_on. Replayed went_on plan.new text.old text.new) }
    ensures printed { IfOk result (λ went_on. Prints went_on (R.remaining input.old) (R.remaining input.new) plan.new text.old (W.contents out.old) (W.contents out.new)) }
    ensures err { OnErr result (Failed plan.new text.old text.new) }
    ensures lost { OnErr result (Loses (R.remaining input.old) (R.remaining input.new)) }
{
    let Some(n) = stream::next_plan(input, plan)? else {
        return Ok(false);
    };
    let shown = terminal_text::show(&plan[..n], text);
    out.write_all(&text[..shown])?;
    Ok(true)
}
