// What was answered, printed in the lines of document 01.

use calendars::Calendar;
use lines::Refusal;
use runs::{Answer, Answered, Run};

// A line of its own.
pub fn title(rt: &impl Print, s: &str) {
    let _ = rt.println(s);
}

// Some bytes as they stand.
pub fn say(rt: &impl Print, s: &[u8]) {
    let _ = rt.write_all(s);
}

// The line of a refusal.
pub fn tell_refused(rt: &impl Print, x: Refusal) {
    let _ = println!(rt; "refused={},{}", x.number(), x.value());
}

// The line of an answer.
fn tell_answer(rt: &impl Print, a: Answer) {
    match a {
        Answer::Offered(o) => {
            let _ = println!(rt; "offer={},{}", o.from.0, o.to.0);
        }
        Answer::Started { window, job, start } => {
            let _ = println!(rt; "started={window},{job},{}", start.0);
        }
        Answer::Final {
            window,
            job,
            finish,
        } => {
            let _ = println!(rt; "final={window},{job},{}", finish.0);
        }
        Answer::Refused(x) => tell_refused(rt, x),
    }
}

// Prints the answer to a step, and hands on the run after it.
pub fn told(rt: &impl Print, a: Answered) -> Run {
    tell_answer(rt, a.answer);
    a.run
}

// What a calendar says of job 1, as numbers: low, high, and the bits of the events that bound it from below and from above.
pub fn tell_numbers(rt: &impl Print, c: &Calendar) {
    let t = c.terms[0];
    let _ = println!(rt;
        "low={}\nhigh={}\nbelow={}\nabove={}",
        t.low.0,
        t.high.0,
        t.below.bits(),
        t.above.bits()
    );
}
