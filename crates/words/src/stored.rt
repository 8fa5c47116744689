// The little-endian 32-bit words of stored bytes.
ghost use Rattle.std.specs.Prelude.{◌≡◌, length, get_or};
ghost use Rattle.words.specs.Words.{words, put_word};

// How many whole words the bytes have.
pub fn word_count(bytes: &[u8]) -> usize
    ensures { result ≡ length (words bytes.now) }
{
    bytes.len() / 4
}

// Word k, 0 past the last whole word.
pub fn word(bytes: &[u8], k: usize) -> u32
    ensures { result ≡ get_or (words bytes.now) k 0 }
{
    // The test is on words, so 4 * k below it cannot wrap.
    if bytes.len() / 4 <= k {
        return 0;
    }
    let at = 4 * k;
    u32::from_le_bytes([bytes[at], bytes[at + 1], bytes[at + 2], bytes[at + 3]])
}

// Word k becomes w; nothing changes where there is no whole word k.
pub fn put_word(buf: &mut [u8], k: usize, w: u32)
    ensures { buf.new ≡ put_word buf.old k w }
{
    if buf.len() / 4 <= k {
        return;
    }
    let at = 4 * k;
    buf[at..at + 4].copy_from_slice(&w.to_le_bytes());
}
