// A text put whole into a line that the caller lends, and the place after it answered.
#![tactic(auto)]

ghost use Rattle.std.specs.Prelude.{◌+◌, ◌≤◌, length};
ghost use Rattle.writing.specs.Writing.{Put};

pub fn put_text(line: &mut [u8], at: usize, text: &[u8]) -> usize
    requires { at + length text.now ≤ length line.old }
    ensures { Put line.old at text.now line.new result }
{
    let end = at + text.len();
    line[at..end].copy_from_slice(text);
    end
}
