// Bytes and numbers put into a line that the caller lends. Each function answers the place after what it put; where that
// does not fit whole, the line stays as it was and the answer is the place given.
ghost use Rattle.std.specs.Prelude.{◌≡◌, [], ◌∷◌, ◌%◌, length};
ghost use Rattle.words.specs.Text.{fits, written, place_after};
ghost use Rattle.words.specs.Digits.{digit, places, decimal, hex16};

pub fn put_byte(line: &mut [u8], at: usize, b: u8) -> usize
    ensures line { line.new ≡ written line.old at (b ∷ []) }
    ensures place { result ≡ place_after line.old at (b ∷ []) }
{
    if line.len() <= at {
        return at;
    }
    line[at] = b;
    at + 1
}

// Decimal digits, with no zeros in front; "0" for 0.
pub fn put_decimal(line: &mut [u8], at: usize, v: u64) -> usize
    ensures line { line.new ≡ written line.old at (decimal v) }
    ensures place { result ≡ place_after line.old at (decimal v) }
{
    let n = decimal_places(v);
    if !has_room(line.len(), at, n) {
        return at;
    }
    let end = at + n;
    let mut rest = v;
    for i in (at..end).rev() {
        line[i] = last_decimal(rest);
        rest /= 10;
    }
    end
}

// Sixteen hexadecimal digits, in lower case.
pub fn put_hex(line: &mut [u8], at: usize, v: u64) -> usize
    ensures line { line.new ≡ written line.old at (hex16 v) }
    ensures place { result ≡ place_after line.old at (hex16 v) }
{
    if !has_room(line.len(), at, 16) {
        return at;
    }
    let end = at + 16;
    let mut rest = v;
    for i in (at..end).rev() {
        line[i] = last_hex(rest);
        rest /= 16;
    }
    end
}

// Whether n bytes fit from a place on. The sum of the two is not formed: it could wrap.
fn has_room(room: usize, at: usize, n: usize) -> bool
    ensures { result ≡ fits room at n }
{
    n <= room && at <= room - n
}

// How many decimal digits v has.
fn decimal_places(v: u64) -> usize
    ensures { result ≡ places v }
{
    let mut n: usize = 1;
    let mut rest = v;
    while 10 <= rest {
        rest /= 10;
        n += 1;
    }
    n
}

// The last decimal digit of v.
fn last_decimal(v: u64) -> u8
    ensures { result ≡ digit (v % 10) }
{
    48 + ((v % 10) as u8)
}

// The last hexadecimal digit of v.
fn last_hex(v: u64) -> u8
    ensures { result ≡ digit (v % 16) }
{
    let d = (v % 16) as u8;
    if d < 10 { 48 + d } else { 87 + d }
}
