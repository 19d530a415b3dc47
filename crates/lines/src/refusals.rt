// The numbers of refusal, and which refusals end a session.
ghost use Rattle.std.specs.Prelude.{◌≡◌};
ghost use Rattle.lines.specs.Refusals.{number, value, ends, line_lacks, fault_at};

use crate::{Fault, Refusal};
use text::NumberFault;

impl Refusal {
    // The paper's number N of a refusal.
    pub fn number(self) -> u64
        ensures { result ≡ number self }
    {
        match self {
            Refusal::Form(_) => 1,
            Refusal::Range(_) => 2,
            Refusal::Pair(_) => 3,
            Refusal::NoStrategy(_) => 4,
            Refusal::Unsettled(_) => 5,
            Refusal::Running => 6,
            Refusal::Idle => 7,
            Refusal::OutsideOffer => 8,
            Refusal::OutsideTimes => 9,
            Refusal::Over => 10,
            Refusal::EmptyOffer => 11,
            Refusal::NoRoom => 12,
        }
    }

    // The value D that is printed with a refusal: the line, K, the rounds, or 0.
    pub fn value(self) -> u64
        ensures { result ≡ value self }
    {
        match self {
            Refusal::Form(line) => line as u64,
            Refusal::Range(line) => line as u64,
            Refusal::Pair(line) => line as u64,
            Refusal::NoStrategy(windows) => windows,
            Refusal::Unsettled(rounds) => rounds,
            Refusal::Running => 0,
            Refusal::Idle => 0,
            Refusal::OutsideOffer => 0,
            Refusal::OutsideTimes => 0,
            Refusal::Over => 0,
            Refusal::EmptyOffer => 0,
            Refusal::NoRoom => 0,
        }
    }

    // Whether a step that is refused so ends the session.
    pub fn ends(self) -> bool
        ensures { result ≡ ends self }
    {
        self.number() <= 2
    }
}

// What a number lacks, as what its line lacks.
impl From<NumberFault> for Fault {
    ghost from_gives = { λ f result. result ≡ line_lacks f };

    fn from(f: NumberFault) -> Fault {
        match f {
            NumberFault::Form => Fault::Form,
            NumberFault::Range => Fault::Range,
        }
    }
}

impl Fault {
    // What a line lacks, as the refusal of that line.
    pub fn at(self, line: usize) -> Refusal
        ensures { result ≡ fault_at line self }
    {
        match self {
            Fault::Form => Refusal::Form(line),
            Fault::Range => Refusal::Range(line),
            Fault::Pair => Refusal::Pair(line),
        }
    }
}
