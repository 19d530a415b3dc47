// What all texts share: their lines, keys with numbers, the refusals of the whole product and the line that reports one, written into a lent slice.
// This crate knows nothing of plans.
#![tactic(auto)]

// The most bytes that a text can have.
pub const LONGEST_TEXT: usize = 65_536;

// What a line can lack, in the order in which a line is judged: its form, the range of a number, a proper pair.
#[derive(Clone, Copy, PartialEq, Eq)]
pub enum Fault {
    Form,
    Range,
    Pair,
}

// Stays: (a) line 0 and no Option: document 01 prints D = 0 where there is no line.
// Why something is refused. The definition `number` gives the paper's number of each case, `value` the D that is printed with it.
#[derive(Clone, Copy, PartialEq, Eq)]
pub enum Refusal {
    // 1: a line lacks the form required; line 0 where the text is too long.
    Form(usize),
    // 2: a number is out of range; line 0 for a run, a calendar or a time that was handed over as a value.
    Range(usize),
    // 3: a wrong pair.
    Pair(usize),
    // 4: no strategy for this many windows.
    NoStrategy(u64),
    // 5: neither settled nor contradicted in this many rounds.
    Unsettled(u64),
    // 6: ask or start while a job runs.
    Running,
    // 7: finish while none runs.
    Idle,
    // 8: start outside the offer.
    OutsideOffer,
    // 9: finish earlier than start + min or later than start + max.
    OutsideTimes,
    // 10: ask or start once the run is over.
    Over,
    // 11: the offer's lower end is above its upper end.
    EmptyOffer,
    // 12: the text to be written is longer than the lent slice.
    NoRoom,
}

// A refusal, and where its faulty line begins.
#[derive(Clone, Copy, PartialEq, Eq)]
pub struct FaultyLine {
    pub refusal: Refusal,
    pub at: usize,
}

// Stays: (a) an empty part and no Option: document 01, 'as a part it is empty'.
// A refusal, and its faulty line as a part of the text, without its LF. The part is empty where no line is faulty.
#[derive(Clone, Copy)]
pub struct FaultyPart<'a> {
    pub refusal: Refusal,
    pub line: &'a [u8],
}

mod input;
mod keyed;
mod lent;
mod parts;
mod program;
mod refusals;
mod refused;

pub use input::read_full;
pub use keyed::put_line;
pub use lent::{Text, write};
pub use parts::faulty_part;
pub use program::{Program, answer_whole};
pub use refused::{put_refused, write_refused};
