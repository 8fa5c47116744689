// The sheet check: whether rows of activity, machine, start and end keep all the rules, and where the first that does not stands.
#![tactic(auto)]

mod rows;
mod rules;

ghost use Rattle.std.specs.Prelude.{◌≡◌};
ghost use Rattle.words.specs.Words.{words};
ghost use Rattle.plan.specs.Input.{problem_of, genes_of};
ghost use Rattle.plan.specs.Found.{Placed};
ghost use Rattle.plan.specs.Accepted.{Accepted};
ghost use Rattle.tables.specs.Tabled.{Tabled};
ghost use Rattle.sheet.specs.Rows.{FirstRows};
ghost use Rattle.sheet.specs.Sheet.{number_of, check_sheet};

use plan::Layout;

// What a row speaks of: an activity on a machine, both known.
#[derive(Clone, Copy)]
pub struct Subject {
    pub activity: usize,
    pub machine: usize,
}

// The rules about a row.
#[derive(Clone, Copy, PartialEq, Eq)]
pub enum Rule {
    // Activity and machine are known.
    Known,
    // No earlier row has this activity.
    Once,
    // The start is not negative.
    Start,
    // The end is not past the largest.
    End,
    // From start to end is the span.
    Span,
    // The start is not before the release,
    Release,
    // nor before the line predecessor's end,
    Line,
    // nor before the task predecessor's end,
    Step,
    // nor before the end of any that the activity names.
    Named,
}

impl Rule {
    // The number that document 01 gives it.
    pub fn number(self) -> usize
        ensures { result ≡ number_of self }
    {
        match self {
            Rule::Known => 1,
            Rule::Once => 2,
            Rule::Start => 3,
            Rule::End => 4,
            Rule::Span => 5,
            Rule::Release => 6,
            Rule::Line => 7,
            Rule::Step => 8,
            Rule::Named => 9,
        }
    }
}

// Accepted; or bad: a rule and the first bad row, rows counted from 0, which breaks it; or, by rule 10, the lowest activity without a row.
#[derive(Clone, Copy)]
pub enum Verdict {
    Accepted,
    Bad(Rule, usize),
    Missing(usize),
}

// Goes through the rows with the last row on each machine so far; `firsts` has the first row of each activity.
fn check_rows(s: &[u8], z: Layout, table: &[usize], rows: &[i64], firsts: &[usize]) -> Verdict
    requires placed { Placed z × Accepted (problem_of (words s.now) z) (genes_of (words s.now) z) × Tabled (problem_of (words s.now) z) table.now }
    requires first_rows { FirstRows z.activities z.machines rows.now firsts.now }
    ensures { result ≡ check_sheet (problem_of (words s.now) z) rows.now }
{
    let n = z.activities;
    let machines = z.machines;
    let count = rows::row_count(rows);
    let mut last_on = [count; 16];
    for i in 0..count {
        let Some(of) = rows::subject_of(rows, n, machines, i) else {
            return Verdict::Bad(Rule::Known, i);
        };
        let a = of.activity;
        let m = of.machine;
        if let Err(rule) = rules::later_rule(s, z, table, rows, firsts, last_on[m], i, a, m) {
            return Verdict::Bad(rule, i);
        }
        last_on[m] = i;
    }
    rules::missing(firsts, n, count)
}

// Checks a sheet: rows of four numbers each, activity, machine, start and end, one after the other.
pub fn check_sheet(s: &[u8], z: Layout, table: &[usize], rows: &[i64]) -> Verdict
    requires { Placed z × Accepted (problem_of (words s.now) z) (genes_of (words s.now) z) × Tabled (problem_of (words s.now) z) table.now }
    ensures { result ≡ check_sheet (problem_of (words s.now) z) rows.now }
{
    let firsts = rows::first_rows(rows, z.activities, z.machines);
    check_rows(s, z, table, rows, &firsts)
}
