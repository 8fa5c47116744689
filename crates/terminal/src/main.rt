// The terminal's program: reads one plan from standard input, and prints its sheet or its refusal.
//
// No accepted plan has more than 65,204 bytes, so that the buffer is never full of one. Of a longer input the buffer holds the first 65,536
// bytes. Its ten sections end within 65,204 bytes, or a word or a rule before that place refuses it; so the refusal of what was read, 5 at
// the latest, is the refusal of the whole.
#![tactic(auto)]

ghost use Rattle.std.specs.Prelude.{OnOk, OnErr};
ghost use Rattle.terminal.specs.Served.{Serves, Fails};

use std::io;
use std::io::{Read, Write};

fn main(rt: HostRuntime) -> io::Result<()> {
    let mut space = [0u8; 65536];
    let plan: &mut [u8] = &mut space;
    let mut room = [0u8; 16384];
    let text: &mut [u8] = &mut room;
    serve(&mut rt.stdin(), &mut rt.stdout(), plan, text)
}

// Reads one plan, and prints what is shown for it. A read or a write that fails ends it with that error; what was written then is open.
fn serve<R: Read, W: Write>(
    input: &mut R,
    out: &mut W,
    plan: &mut [u8],
    text: &mut [u8],
) -> io::Result<()>
    ensures ok { OnOk result (Serves (R.remaining input.old) (R.remaining input.new) plan.new text.old text.new (W.contents out.old) (W.contents out.new)) }
    ensures err { OnErr result (Fails (R.remaining input.old) (R.remaining input.new) plan.new text.old text.new) }
{
    let length = stream::read_full(input, plan)?;
    let shown = terminal_text::show(&plan[..length], text);
    out.write_all(&text[..shown])
}
