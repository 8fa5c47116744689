// Plans from a reader, one after the other, each after its length in bytes as a little-endian word.
#![tactic(auto)]

ghost use Rattle.std.specs.Prelude.{◌<◌, IfOk, OnErr, length, take};
ghost use Rattle.std.specs.Io.KnownBytes.{Consumes, IsAtEnd};
ghost use Rattle.stream.specs.Stream.{Lies, Takes, IsPrefixLen, Leaves, Loses};

use std::io;
use std::io::Read;

// Reads the next plan to the start of the buffer, and answers its length. The input has ended also where the rest of it holds no whole plan
// that has room there. A read that fails ends it with that error; how far the buffer was filled then is open.
pub fn next_plan<R: Read>(input: &mut R, plan: &mut [u8]) -> io::Result<Option<usize>>
    ensures lies { IfOk result (λ next. Lies next plan.new) }
    ensures taken { IfOk result (λ next. Takes (R.remaining input.old) (R.remaining input.new) next plan.new) }
    ensures err { OnErr result (Loses (R.remaining input.old) (R.remaining input.new)) }
{
    let mut head = [0u8; 4];
    let got = read_full(input, &mut head)?;
    if got < 4 {
        return Ok(None);
    }
    let n = words::word(&head, 0) as usize;
    if plan.len() < n {
        return Ok(None);
    }
    let length = read_full(input, &mut plan[..n])?;
    if length < n {
        return Ok(None);
    }
    Ok(Some(n))
}

// Reads until the buffer is full or the input ends, and answers how many bytes it put at the start of the buffer. A read that fails ends it
// with that error; what was read before stands at the start of the buffer.
pub fn read_full<R: Read>(input: &mut R, buf: &mut [u8]) -> io::Result<usize>
    ensures within { IfOk result (λ n. IsPrefixLen n buf.new) }
    ensures taken { IfOk result (λ n. Consumes (R.remaining input.old) (R.remaining input.new) (take n buf.new)) }
    ensures ended { IfOk result (λ n. n < length buf.new → IsAtEnd (R.remaining input.new)) }
    ensures err { OnErr result (Leaves (R.remaining input.old) (R.remaining input.new) buf.new) }
{
    let mut done = 0;
    while done < buf.len() {
        let n = input.read(&mut buf[done..])?;
        if n == 0 {
            break;
        }
        done += n;
    }
    Ok(done)
}
