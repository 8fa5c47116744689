// What the terminal shows for an input.
#![tactic(auto)]

ghost use Rattle.std.specs.Prelude.{◌≤◌, ◌≡◌, length, take};
ghost use Rattle.reader.specs.Answer.{Accepted};
ghost use Rattle.plan.specs.Found.{layout_of};
ghost use Rattle.intake.specs.Intake.{taken_in};
ghost use Rattle.printing.specs.Printing.{sheet_text, refusal_text};
ghost use Rattle.reader.specs.Refusals.{number_of};
ghost use Rattle.renewed.specs.Meaning.{renewed_plan};
ghost use Rattle.terminal_text.specs.Shown.{decode_text, shown, enough, PutShort, Within, shown_over, shown_length};

use improving::Ending;
use reader::Refusal;

// Puts a sheet of n rows, which are the first cells of five columns.
fn put_first(
    out: &mut [u8],
    outcome: u64,
    n: usize,
    bits: u64,
    activities: &[usize],
    machines: &[usize],
    starts: &[u64],
    ends: &[u64],
    setups: &[u64],
) -> usize
    requires n_bound { (n ≤ 128) × (enough ≤ length out.old) }
    requires n_in_bounds { (n ≤ length activities.now) × (n ≤ length machines.now) × (n ≤ length starts.now) × (n ≤ length ends.now) × (n ≤ length setups.now) }
    ensures { PutShort out.old (sheet_text outcome bits (take n activities.now) (take n machines.now) (take n starts.now) (take n ends.now) (take n setups.now)) out.new result }
{
    printing::put_sheet(
        out,
        outcome,
        bits,
        &activities[..n],
        &machines[..n],
        &starts[..n],
        &ends[..n],
        &setups[..n],
    )
}

// Puts a refusal.
fn show_refusal(refused: Refusal, out: &mut [u8]) -> usize
    requires { enough ≤ length out.old }
    ensures { PutShort out.old (refusal_text (number_of refused.reason) refused.place) out.new result }
{
    printing::put_refusal(out, refused.reason.number() as u64, refused.place as u64)
}

// Puts the better sheet of a plan and the outcome beside it, or the plan's refusal.
fn show_sheet(s: &[u8], outcome: u64, out: &mut [u8]) -> usize
    requires { enough ≤ length out.old }
    ensures { PutShort out.old (decode_text outcome s.now) out.new result }
{
    let mut activities = [0usize; 128];
    let mut machines = [0usize; 128];
    let mut starts = [0u64; 128];
    let mut ends = [0u64; 128];
    let mut setups = [0u64; 128];
    let answer = decoding::decode(
        s,
        &mut activities,
        &mut machines,
        &mut starts,
        &mut ends,
        &mut setups,
    );
    match answer {
        Err(refused) => show_refusal(refused, out),
        Ok(sheet) => {
            put_first(
                out,
                outcome,
                sheet.rows,
                sheet.bits,
                &activities,
                &machines,
                &starts,
                &ends,
                &setups,
            )
        }
    }
}

// The same for a plan with the order and the machines that Improve wrote.
fn show_renewed(s: &[u8], tasks: &[usize], machines: &[usize], out: &mut [u8]) -> usize
    requires { ((taken_in s.now).answer ≡ Accepted) × (128 ≤ length tasks.now) × (128 ≤ length machines.now) × (enough ≤ length out.old) }
    ensures { PutShort out.old (decode_text 14 (renewed_plan s.now (take (layout_of (taken_in s.now)).activities tasks.now) (take (layout_of (taken_in s.now)).activities machines.now))) out.new result }
{
    let read = reader::read(s).unwrap();
    let z = plan::layout_of(read);
    let n = z.activities;
    let k = z.at.order;
    let mut bytes = [0u8; 65536];
    let len = renewed::renew(&mut bytes, k, &s[..4 * k], &tasks[..n], &machines[..n]);
    show_sheet(&bytes[..len], 14, out)
}

// Improves, and puts what Improve's answer asks for. The first three buffers are work space. The line fitness of 13 and 14 is not shown: a
// sheet has its own.
fn show_in(
    s: &[u8],
    cells: &mut [usize],
    tasks: &mut [usize],
    machines: &mut [usize],
    out: &mut [u8],
) -> usize
    requires { (length cells.old ≡ 2048) × (length tasks.old ≡ 128) × (length machines.old ≡ 128) × (enough ≤ length out.old) }
    ensures { PutShort out.old (shown s.now) out.new result }
{
    let answer = improving::improve(s, cells, tasks, machines);
    match answer {
        Err(refused) => show_refusal(refused, out),
        Ok(Ending::NoSteps) => show_sheet(s, 10, out),
        Ok(Ending::Incomplete) => show_sheet(s, 11, out),
        Ok(Ending::Contradictory) => show_sheet(s, 12, out),
        Ok(Ending::NothingBetter(_line)) => show_sheet(s, 13, out),
        Ok(Ending::Better(_line)) => show_renewed(s, tasks, machines, out),
    }
}

// Puts what the terminal shows for an input, and answers how many bytes that is. 16,384 bytes are always enough; with fewer nothing is put, and
// the answer is 0.
pub fn show(s: &[u8], out: &mut [u8]) -> usize
    ensures text { out.new ≡ shown_over s.now out.old }
    ensures length { result ≡ shown_length s.now out.old }
    ensures short { result ≤ enough }
    ensures within { Within result out.new }
{
    if out.len() < 16384 {
        return 0;
    }
    let mut cells = [0usize; 2048];
    let mut tasks = [0usize; 128];
    let mut machines = [0usize; 128];
    show_in(s, &mut cells, &mut tasks, &mut machines, out)
}
