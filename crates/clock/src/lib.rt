// The two clocks. A time on a window's own clock and a time on the run's clock are values of two types, so that one is never taken
// for the other; only a conversion by window number leads across. All times are whole milliseconds.
#![tactic(auto)]

mod across;
mod times;

pub use across::on_run;
pub use times::is_between;

// A time on a window's own clock, which begins with the window.
#[derive(Clone, Copy, PartialEq, Eq, PartialOrd, Ord)]
pub struct WindowTime(pub i64);

// A time on the run's clock, which begins with window 1.
#[derive(Clone, Copy, PartialEq, Eq, PartialOrd, Ord)]
pub struct RunTime(pub i64);
