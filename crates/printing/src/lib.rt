// What the program prints, as text in a line that the caller lends. Each function answers the place after what it put.
#![tactic(auto)]

ghost use Rattle.std.specs.Prelude.{◌≡◌, [], ◌∷◌, ◌++◌, ◌+◌, ◌*◌, ◌≤◌, length};
ghost use Rattle.words.specs.Digits.{hex16};
ghost use Rattle.writing.specs.Writing.{Put};
ghost use Rattle.printing.specs.Printing.{number_text, row_text, rows_to, head_text, sheet_text, refusal_text};

// A number has at most twenty digits; with the byte after it, 21 bytes are always enough.
fn put_number(line: &mut [u8], at: usize, v: u64, after: u8) -> usize
    requires { at + 21 ≤ length line.old }
    ensures text { Put line.old at (number_text v after) line.new result }
    ensures short { result ≤ at + 21 }
{
    let digits = words::put_decimal(line, at, v);
    words::put_byte(line, digits, after)
}

// Activity and machine.
fn put_seat(line: &mut [u8], at: usize, activity: usize, machine: usize) -> usize
    requires { at + 42 ≤ length line.old }
    ensures text { Put line.old at (number_text activity 32 ++ number_text machine 32) line.new result }
    ensures short { result ≤ at + 42 }
{
    let next = put_number(line, at, activity as u64, b' ');
    put_number(line, next, machine as u64, b' ')
}

// Start, end and setup, and the end of the line.
fn put_times(line: &mut [u8], at: usize, start: u64, end: u64, setup: u64) -> usize
    requires { at + 63 ≤ length line.old }
    ensures text { Put line.old at (number_text start 32 ++ number_text end 32 ++ number_text setup 10) line.new result }
    ensures short { result ≤ at + 63 }
{
    let second = put_number(line, at, start, b' ');
    let third = put_number(line, second, end, b' ');
    put_number(line, third, setup, b'\n')
}

// A row takes at most 105 bytes.
fn put_row(
    line: &mut [u8],
    at: usize,
    activity: usize,
    machine: usize,
    start: u64,
    end: u64,
    setup: u64,
) -> usize
    requires { at + 105 ≤ length line.old }
    ensures text { Put line.old at (row_text activity machine start end setup) line.new result }
    ensures short { result ≤ at + 105 }
{
    let next = put_seat(line, at, activity, machine);
    put_times(line, next, start, end, setup)
}

fn put_rows(
    line: &mut [u8],
    at: usize,
    activities: &[usize],
    machines: &[usize],
    starts: &[u64],
    ends: &[u64],
    setups: &[u64],
) -> usize
    requires activities_in_bounds { at + 105 * length activities.now ≤ length line.old }
    requires machines_len { (length machines.now ≡ length activities.now) × (length starts.now ≡ length activities.now) × (length ends.now ≡ length activities.now) × (length setups.now ≡ length activities.now) }
    ensures text { Put line.old at (rows_to activities.now machines.now starts.now ends.now setups.now (length activities.now)) line.new result }
    ensures short { result ≤ at + 105 * length activities.now }
{
    let mut next = at;
    for i in 0..activities.len() {
        next = put_row(
            line,
            next,
            activities[i],
            machines[i],
            starts[i],
            ends[i],
            setups[i],
        );
    }
    next
}

// The lines of the outcome and of the fitness, 54 bytes at most.
fn put_head(line: &mut [u8], outcome: u64, bits: u64) -> usize
    requires { 64 ≤ length line.old }
    ensures text { Put line.old 0 (head_text outcome bits) line.new result }
    ensures short { result ≤ 64 }
{
    let first = writing::put_text(line, 0, b"outcome ");
    let second = put_number(line, first, outcome, b'\n');
    let third = writing::put_text(line, second, b"fitness ");
    let fourth = words::put_hex(line, third, bits);
    words::put_byte(line, fourth, b'\n')
}

// A sheet: outcome, fitness, rows.
pub fn put_sheet(
    line: &mut [u8],
    outcome: u64,
    bits: u64,
    activities: &[usize],
    machines: &[usize],
    starts: &[u64],
    ends: &[u64],
    setups: &[u64],
) -> usize
    requires activities_in_bounds { 64 + 105 * length activities.now ≤ length line.old }
    requires machines_len { (length machines.now ≡ length activities.now) × (length starts.now ≡ length activities.now) × (length ends.now ≡ length activities.now) × (length setups.now ≡ length activities.now) }
    ensures text { Put line.old 0 (sheet_text outcome bits activities.now machines.now starts.now ends.now setups.now) line.new result }
    ensures short { result ≤ 64 + 105 * length activities.now }
{
    let next = put_head(line, outcome, bits);
    put_rows(line, next, activities, machines, starts, ends, setups)
}

// A refusal, 50 bytes at most.
pub fn put_refusal(line: &mut [u8], number: u64, place: u64) -> usize
    requires { 64 ≤ length line.old }
    ensures text { Put line.old 0 (refusal_text number place) line.new result }
    ensures short { result ≤ 64 }
{
    let first = writing::put_text(line, 0, b"refused ");
    let second = put_number(line, first, number, b' ');
    put_number(line, second, place, b'\n')
}
