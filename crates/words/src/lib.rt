// Stored bytes as words, words as signed numbers, and numbers as text: what the reader, the writer and the printed
// lines are made of. No function asks anything of its caller.
#![tactic(auto)]

mod signed;
mod stored;
mod text;

pub use signed::{clamped, signed_word, unsigned_word};
pub use stored::{put_word, word, word_count};
pub use text::{put_byte, put_decimal, put_hex};
