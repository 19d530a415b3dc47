// A plan as a value: judged as its text would be, written out as its text, and decided.
#![tactic(auto)]

// The most jobs and the most bounds, as counts of a plan's lines.
const JOBS_AT_MOST: u64 = plan::MOST_JOBS as u64;

const BOUNDS_AT_MOST: u64 = plan::MOST_BOUNDS as u64;

mod bound_values;
mod job_values;
mod plan_value;
mod value;
mod writer;

pub use plan_value::judge_plan;
pub use value::{answer_value, decide_value};
pub use writer::write_plan;
