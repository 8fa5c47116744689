// Why something is refused, and where.
ghost use Rattle.std.specs.Prelude.{◌≡◌};
ghost use Rattle.reader.specs.Refusals.{number_of};

// Why a plan, its lines or what the caller lends is refused.
#[derive(Clone, Copy, PartialEq, Eq)]
pub enum Reason {
    // The stored bytes end before a word.
    Cut,
    // A word is out of its range.
    Range,
    // A rule about counts or entries is broken.
    Rule,
    // Task order and predecessors close a circle.
    Circle,
    // Bytes follow the last section.
    Rest,
    // A buffer is too short.
    Room,
    // Lines do not hold each activity once, or none can be made.
    Lines,
    // Lines, task order and predecessors close a circle.
    Contradiction,
}

impl Reason {
    // The number that the screen shows.
    pub fn number(self) -> u32
        ensures { result ≡ number_of self }
    {
        match self {
            Reason::Cut => 1,
            Reason::Range => 2,
            Reason::Rule => 3,
            Reason::Circle => 4,
            Reason::Rest => 5,
            Reason::Room => 6,
            Reason::Lines => 7,
            Reason::Contradiction => 8,
        }
    }
}

// A refusal, and the place in the stored bytes that it is about.
#[derive(Clone, Copy, PartialEq, Eq)]
pub struct Refusal {
    pub reason: Reason,
    pub place: usize,
}
