// A plan's stored bytes with another Order and Assignment. They are the last two sections, so all before them stays as it is.
#![tactic(auto)]

ghost use Rattle.std.specs.Prelude.{◌+◌, ◌*◌, ◌≤◌, ◌≡◌, length};
ghost use Rattle.words.specs.Text.{written};
ghost use Rattle.words.specs.Words.{bytes_of};
ghost use Rattle.renewed.specs.Renewed.{low_words, section, renewed_bytes};

// Puts numbers as words, from word k on.
fn put_words(buf: &mut [u8], k: usize, numbers: &[usize])
    requires { 4 * (k + length numbers.now) ≤ length buf.old }
    ensures { buf.new ≡ written buf.old (4 * k) (bytes_of (low_words numbers.now)) }
{
    for (i, &number) in numbers.iter().enumerate() {
        words::put_word(buf, k + i, (number % 0x1_0000_0000) as u32);
    }
}

// Puts a section: how many numbers, then the numbers.
fn put_section(buf: &mut [u8], k: usize, numbers: &[usize])
    requires { 4 * (k + 1 + length numbers.now) ≤ length buf.old }
    ensures { buf.new ≡ written buf.old (4 * k) (section numbers.now) }
{
    words::put_word(buf, k, (numbers.len() % 0x1_0000_0000) as u32);
    put_words(buf, k + 1, numbers);
}

// Puts what stands before the Order section, k words, then the new Order and Assignment. Answers how many bytes that is.
pub fn renew(buf: &mut [u8], k: usize, before: &[u8], tasks: &[usize], machines: &[usize]) -> usize
    requires { (length before.now ≡ 4 * k) × (4 * (k + 2 + length tasks.now + length machines.now) ≤ length buf.old) }
    ensures bytes { buf.new ≡ written buf.old 0 (renewed_bytes before.now tasks.now machines.now) }
    ensures length { result ≡ length (renewed_bytes before.now tasks.now machines.now) }
{
    writing::put_text(buf, 0, before);
    put_section(buf, k, tasks);
    let next = k + 1 + tasks.len();
    put_section(buf, next, machines);
    4 * (next + 1 + machines.len())
}
