// Words as signed numbers, by two's complement.
ghost use Rattle.std.specs.Prelude.{◌≡◌};
ghost use Rattle.words.specs.Signed.{signed_word, unsigned_word, clamp};

// The first word that stands for a negative number.
const NEGATIVE_FROM: u32 = 0x8000_0000;

// The signed number that a word stands for.
pub fn signed_word(w: u32) -> i32
    ensures { result ≡ signed_word w }
{
    w.cast_signed()
}

// The word that stands for a signed number.
pub fn unsigned_word(v: i32) -> u32
    ensures { result ≡ unsigned_word v }
{
    v.cast_unsigned()
}

// The signed number that a word stands for, 0 where it is negative.
pub fn clamped(w: u32) -> u32
    ensures { result ≡ clamp (signed_word w) }
{
    if w < NEGATIVE_FROM { w } else { 0 }
}
