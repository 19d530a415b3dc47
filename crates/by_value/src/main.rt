// The operations on values, run: what other programs read from a text is built by hand here, and passed in. It reads no input; what it
// prints is compared with the crate's file `stdout`, which was written from document 01 and not by this program.
#![tactic(auto)]

mod faulty;
mod limits;
mod made;
mod plans;
mod steps;
mod told;

fn main(rt: HostRuntime) {
    plans::decisions(&rt);
    plans::refusals(&rt);
    plans::texts(&rt);
    steps::session_of_p(&rt);
    steps::refusals(&rt);
    steps::first_rows(&rt);
    limits::of_runs(&rt);
    limits::of_calendars(&rt);
    limits::of_times(&rt);
    faulty::lines(&rt);
}
