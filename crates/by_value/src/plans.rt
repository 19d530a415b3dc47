// Plans as values: what is decided of them, how they are refused, and their texts.

use crate::made::{plan_between, plan_of_max, plan_of_nine, plan_p, starts, starts_from};
use crate::told::{say, tell_numbers, tell_refused, title};
use lines::Refusal;
use plan::{Letter, Plan};

// The text of what is decided of a plan.
fn answered(rt: &impl Print, p: Plan) {
    let mut out = [0u8; 1024];
    match values::answer_value(p, &mut out) {
        Ok(m) => say(rt, &out[..m]),
        Err(x) => tell_refused(rt, x),
    }
}

// The same from the value: settled and what bounds job 1, or the refusal.
fn decided(rt: &impl Print, p: Plan) {
    match values::decide_value(p) {
        Ok(d) => {
            let _ = println!(rt; "settled={}", d.round);
            tell_numbers(rt, &d.calendar);
        }
        Err(x) => tell_refused(rt, x),
    }
}

// Whether a plan is good, or its refusal.
fn judged(rt: &impl Print, p: Plan) {
    match values::judge_plan(p) {
        Ok(()) => title(rt, "accepted"),
        Err(x) => tell_refused(rt, x),
    }
}

// What writing into a lent slice answers, and all bytes of the slice after it.
fn tell_written(rt: &impl Print, w: Result<usize, Refusal>, out: &[u8]) {
    match w {
        Ok(m) => {
            let _ = println!(rt; "length={m}");
        }
        Err(x) => tell_refused(rt, x),
    }
    say(rt, out);
    title(rt, "");
}

// A plan is written.
fn wrote(rt: &impl Print, p: Plan, out: &mut [u8]) {
    let w = values::write_plan(p, out);
    tell_written(rt, w, out);
}

// The text of what is decided of it is.
fn answered_in(rt: &impl Print, p: Plan, out: &mut [u8]) {
    let w = values::answer_value(p, out);
    tell_written(rt, w, out);
}

// P1 and P6: settled. P3, P4 and P5: one bound that is too near. P7 and P8: no strategy for one window, and none for two.
pub fn decisions(rt: &impl Print) {
    let p = plan_p();
    title(rt, "P1");
    answered(rt, p);
    decided(rt, p);
    let p6 = plan_of_max(10);
    title(rt, "P6");
    answered(rt, p6);
    decided(rt, p6);
    title(rt, "P3");
    decided(rt, plan_of_nine(100));
    title(rt, "P4");
    answered(rt, plan_of_nine(7));
    let p5 = plan_of_nine(6);
    title(rt, "P5");
    answered(rt, p5);
    decided(rt, p5);
    let p7 = plan_of_max(11);
    title(rt, "P7");
    answered(rt, p7);
    decided(rt, p7);
    let p8 = plan_between(
        starts(Letter::Next, Letter::This, 5),
        starts(Letter::This, Letter::Next, -10),
    );
    title(rt, "P8");
    decided(rt, p8);
}

// One plan, refused in each of the ways in which a plan is passed in.
fn refused(rt: &impl Print, p: Plan) {
    judged(rt, p);
    decided(rt, p);
    answered(rt, p);
    wrote(rt, p, &mut [b'.'; 16]);
}

// 2 on the line of the window, and on that of max; a job number of two digits lacks the form, and one above `jobs` is out of range; 3 on the line of the second
// bound.
pub fn refusals(rt: &impl Print) {
    let first = starts(Letter::Next, Letter::This, 12);
    let of_two_digits = starts_from(12, Letter::Next, Letter::This, 12);
    let of_another_job = starts_from(2, Letter::Next, Letter::This, 12);
    title(rt, "window 0");
    refused(
        rt,
        Plan {
            window: 0,
            ..plan_p()
        },
    );
    title(rt, "min above max");
    judged(rt, plan_of_max(1));
    title(rt, "job 12 in an event");
    refused(rt, plan_between(of_two_digits, first));
    title(rt, "job 2 of one");
    judged(rt, plan_between(first, of_another_job));
    title(rt, "a pair again");
    refused(rt, plan_between(first, first));
}

// P has 115 bytes, and its calendar 57.
pub fn texts(rt: &impl Print) {
    let p = plan_p();
    title(rt, "P written into 116, 115 and 114 bytes");
    judged(rt, p);
    wrote(rt, p, &mut [b'.'; 116]);
    wrote(rt, p, &mut [b'.'; 115]);
    wrote(rt, p, &mut [b'.'; 114]);
    title(rt, "its calendar into 57 and 56 bytes");
    answered_in(rt, p, &mut [b'.'; 57]);
    answered_in(rt, p, &mut [b'.'; 56]);
}
