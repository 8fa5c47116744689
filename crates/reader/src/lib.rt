// Reads the stored form in place, by the rows of the grammar. It writes nothing, so a refusal leaves nothing behind.
#![tactic(auto)]

mod refusal;

ghost use Rattle.std.specs.Prelude.{◌≡◌, ◌+◌, ◌*◌, ◌-◌, ◌<◌, ◌≤◌, ◌^◌, length, get_or};
ghost use Rattle.words.specs.Words.{words};
ghost use Rattle.grammar.specs.Rules.{width_of};
ghost use Rattle.reader.specs.Answer.{told};
ghost use Rattle.reader.specs.Reading.{read_word, read_fields, read_entries, read_section, read_all};

use grammar::{Kind, Known, Section};
pub use refusal::{Reason, Refusal};

// What was read: the counts, and the place of each section's count, as word numbers.
#[derive(Clone, Copy)]
pub struct Sections {
    pub known: Known,
    pub starts: [usize; 10],
}

// Goes on to the next word, as a word number, or refuses this one.
fn read_word(s: &[u8], kind: Kind, k: Known, at: usize) -> Result<usize, Refusal>
    requires { at ≤ length (words s.now) }
    ensures { result ≡ read_word (words s.now) kind k at }
{
    if words::word_count(s) <= at {
        return Err(Refusal {
            reason: Reason::Cut,
            place: 4 * at,
        });
    }
    let before = words::word(s, at.saturating_sub(1));
    if !grammar::is_in_range(kind, k, before, words::word(s, at)) {
        let wrong = at.saturating_sub(grammar::back_of(kind));
        return Err(Refusal {
            reason: Reason::Range,
            place: 4 * wrong,
        });
    }
    Ok(at + 1)
}

// Reads the words of an entry.
fn read_entry(s: &[u8], row: Section, k: Known, at: usize) -> Result<usize, Refusal>
    requires { at ≤ length (words s.now) }
    ensures { result ≡ read_fields (words s.now) row k (width_of row k) 0 at }
{
    let mut p = at;
    for f in 0..grammar::width_of(row, k) {
        p = read_word(s, grammar::kind_at(row, f), k, p)?;
    }
    Ok(p)
}

// Reads n entries, each with its rule.
fn read_entries(s: &[u8], row: Section, k: Known, n: u32, at: usize) -> Result<usize, Refusal>
    requires { at ≤ length (words s.now) }
    ensures { result ≡ read_entries (words s.now) row k n 0 at }
{
    let w = grammar::width_of(row, k);
    let mut p = at;
    for done in 0..n as usize {
        let next = read_entry(s, row, k, p)?;
        if !grammar::is_entry_kept(s, row.rule, w, done, p) {
            return Err(Refusal {
                reason: Reason::Rule,
                place: 4 * p,
            });
        }
        p = next;
    }
    Ok(p)
}

// Reads a section: its count, the rule about it, its entries.
fn read_section(s: &[u8], row: Section, k: Known, at: usize) -> Result<usize, Refusal>
    requires { at ≤ length (words s.now) }
    ensures { result ≡ read_section (words s.now) row k at }
{
    let next = read_word(s, Kind::Span(row.low, row.high), k, at)?;
    let n = words::word(s, at);
    if !grammar::is_count_kept(row.check, k, n) {
        let count = 4 * at;
        return Err(Refusal {
            reason: Reason::Rule,
            place: count,
        });
    }
    read_entries(s, row, grammar::learn(row.keep, k, n), n, next)
}

// Reads the stored form.
pub fn read(s: &[u8]) -> Result<Sections, Refusal>
    ensures { result ≡ told (read_all s.now) }
{
    let mut known = Known {
        tasks: 0,
        activities: 0,
        machines: 0,
        total: 0,
    };
    let mut starts: [usize; 10] = [0; 10];
    let mut at: usize = 0;
    for i in 0..10 {
        let row = grammar::section_at(i);
        let next = read_section(s, row, known, at)?;
        let learnt = grammar::learn(row.keep, known, words::word(s, at));
        known = grammar::after_section(s, row.keep, learnt, at);
        starts[i] = at;
        at = next;
    }
    let end = 4 * at;
    if end < s.len() {
        return Err(Refusal {
            reason: Reason::Rest,
            place: end,
        });
    }
    Ok(Sections { known, starts })
}
