// Bounds between events, their judgement, and the elimination of one event from a set of them.
#![tactic(auto)]

mod bounded;
mod cells;
mod eliminate;
mod judging;
mod nodes;
mod places;
mod tables;
mod times;

pub use times::times_of;

// The events of a bound z - y <= w. Jobs are counted by their place from the first job of this window on, so that the next window's
// places follow this window's: with three jobs, place 4 is the next window's second job.
#[derive(Clone, Copy, PartialEq, Eq)]
pub enum Event {
    Origin,
    Start(usize),
    Finish(usize),
}

// The earliest and the latest of each node of two windows; the places past the last node are no part of it.
// Stays: (a) two lists, as every definition of times takes them, and their range a clause: a ghost field would ask `Table::put` for all nodes' range, and
// today it asks for that of two.
#[derive(Clone, Copy)]
pub struct Spans {
    pub early: [i32; Table::SIDE],
    pub late: [i32; Table::SIDE],
}

// What is wrong with a set of bounds that cannot all be kept: the error of what works on a table.
#[derive(Clone, Copy)]
pub struct Contradiction;

// What the judgement of a bound says.
#[derive(Clone, Copy)]
pub enum Judgement {
    Contradiction,
    LeftOut,
    Kept,
}

// A set of bounds: for each ordered pair of events the least weight, or the mark for no bound.
#[derive(Clone, Copy)]
pub struct Table {
    pub weights: [i32; Table::SIZE],
}

impl Table {
    // The origin, and the events of two windows.
    pub const SIDE: usize = events::MOST_EVENTS + 1;

    pub const SIZE: usize = Table::SIDE * Table::SIDE;
    // Stays: (a) a mark and no Option: document 01's form of the table type has it, and a cell stays four bytes.
    // The mark for no bound on a pair.
    pub const NO_BOUND: i32 = i32::MAX;
}
