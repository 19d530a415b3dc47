// Rounds and the verdict on a plan.
#![tactic(auto)]

mod given;
mod joined;
mod own;
mod same;
mod told;
mod verdicts;

pub use told::tell_verdict;
pub use verdicts::settle;

// The verdict on a plan: settled in a round, no strategy for so many windows, or neither in so many rounds.
#[derive(Clone, Copy)]
pub enum Verdict {
    Settled(u64),
    NoStrategy(u64),
    Unsettled(u64),
}
