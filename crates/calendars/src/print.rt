// The calendar's text, written into a lent slice.
// Stays: (d) a slice and a place in it one by one, as in `crates/text/src/write.rt`.
ghost use Rattle.std.specs.Prelude.{◌≡◌, length, get_or, ◌+◌, ◌*◌, ◌^◌, ◌≤◌, ◌<◌};
ghost use Rattle.text.specs.Lent.{Stored};
ghost use Rattle.plan.specs.Limits.{most_jobs};
ghost use Rattle.events.specs.Bits.{bits_of, most_events};
ghost use Rattle.calendars.specs.Calendars.{no_terms};
ghost use Rattle.calendars.specs.CalendarText.{
  event_letter,
  event_kind,
  event_job,
  event_bytes,
  term_line,
  term_lines,
  job_head,
  job_text,
  job_texts,
  calendar_text,
  most_term_bytes,
  most_head_bytes,
  most_job_bytes,
  most_calendar_bytes,
};

use crate::{Calendar, MOST_TERMS, Terms};
use events::{Events, MOST_EVENTS};
use text::Decimal;

// The window letter of event e: p for the previous window, whose events come first, t for this one.
fn event_letter(jobs: usize, e: usize) -> u8
    requires { jobs ≤ most_jobs }
    ensures { result ≡ event_letter jobs e }
{
    if e < 2 * jobs { b'p' } else { b't' }
}

// The kind of event e: s before f.
fn event_kind(e: usize) -> u8
    ensures { result ≡ event_kind e }
{
    if e % 2 == 0 { b's' } else { b'f' }
}

// The job of event e, from 1.
fn event_job(jobs: usize, e: usize) -> u64
    requires { jobs ≤ most_jobs }
    ensures { result ≡ event_job jobs e }
{
    let own = 2 * jobs;
    let place = if e < own { e / 2 } else { (e - own) / 2 };
    place as u64 + 1
}

// The name of event e.
fn put_event(out: &mut [u8], at: usize, jobs: usize, e: usize) -> usize
    requires at_bound { at ≤ 2 ^ 61 }
    requires jobs_le_most_jobs { jobs ≤ most_jobs }
    ensures stored { Stored out.old at (event_bytes jobs e) out.new result }
    ensures upper_bound { result ≤ at + 22 }
{
    let second = text::put_byte(out, at, event_letter(jobs, e));
    let third = text::put_byte(out, second, event_kind(e));
    event_job(jobs, e).put(out, third)
}

// The line of event e as a term, with its c.
fn put_term(out: &mut [u8], at: usize, key: &[u8], jobs: usize, e: usize, c: i32) -> usize
    requires at_bound { at ≤ 2 ^ 60 }
    requires key_len_bound { length key.now ≤ 8 }
    requires jobs_le_most_jobs { jobs ≤ most_jobs }
    ensures stored { Stored out.old at (term_line jobs key.now e c) out.new result }
    ensures upper_bound { result ≤ at + most_term_bytes }
{
    let name = text::put_bytes(out, at, key);
    let mark = put_event(out, name, jobs, e);
    let number = text::put_byte(out, mark, b',');
    text::put_ended(out, number, i64::from(c), b'\n')
}

// The terms of one side of a job, in order: those of the set among count events, as many as it has ones; the c of event e stands at place row + e.
fn put_terms(
    out: &mut [u8],
    at: usize,
    key: &[u8],
    jobs: usize,
    set: Events,
    cs: &[i32; MOST_TERMS],
    row: usize,
    count: usize,
) -> usize
    requires at_bound { at ≤ 2 ^ 59 }
    requires key_len_bound { length key.now ≤ 8 }
    requires jobs_le_most_jobs { jobs ≤ most_jobs }
    requires count_le_most_events { count ≤ most_events }
    requires count_bound { row + count ≤ most_jobs * most_events }
    ensures stored { Stored out.old at (term_lines jobs key.now (bits_of set) cs.now row 0 count) out.new result }
    ensures upper_bound { result ≤ at + most_term_bytes * count }
{
    let mut end = at;
    for e in set.members(0, count).take(set.count() as usize) {
        end = put_term(out, end, key, jobs, e, cs[row + e]);
    }
    end
}

// The head of one job, at place i: its number from 1, and the origin's two bounds.
fn put_head(out: &mut [u8], at: usize, i: usize, terms: Terms) -> usize
    requires at_bound { at ≤ 2 ^ 59 }
    requires i_lt_most_jobs { i < most_jobs }
    ensures stored { Stored out.old at (job_head i terms) out.new result }
    ensures upper_bound { result ≤ at + most_head_bytes }
{
    let second = lines::put_line(out, at, b"job=", i as u64 + 1);
    let third = lines::put_line(out, second, b"low=", terms.low.0);
    lines::put_line(out, third, b"high=", terms.high.0)
}

// One job, at place i: its head, and its terms on both sides.
fn put_job(out: &mut [u8], at: usize, jobs: usize, i: usize, c: &Calendar) -> usize
    requires at_bound { at ≤ 2 ^ 58 }
    requires jobs_le_most_jobs { jobs ≤ most_jobs }
    requires i_lt_most_jobs { i < most_jobs }
    ensures stored { Stored out.old at (job_text jobs i (get_or c.now.terms i no_terms) c.now.at_least c.now.at_most) out.new result }
    ensures upper_bound { result ≤ at + most_job_bytes }
{
    let terms = c.terms[i];
    let row = i * MOST_EVENTS;
    let count = 2 * (jobs + i);
    let second = put_head(out, at, i, terms);
    let third = put_terms(
        out,
        second,
        b"atleast=",
        jobs,
        terms.below,
        &c.at_least,
        row,
        count,
    );
    put_terms(
        out,
        third,
        b"atmost=",
        jobs,
        terms.above,
        &c.at_most,
        row,
        count,
    )
}

// All jobs, in order.
fn put_jobs(out: &mut [u8], at: usize, jobs: usize, c: &Calendar) -> usize
    requires at_bound { at ≤ 2 ^ 57 }
    requires jobs_le_most_jobs { jobs ≤ most_jobs }
    ensures stored { Stored out.old at (job_texts jobs c.now 0 jobs) out.new result }
    ensures upper_bound { result ≤ at + most_job_bytes * jobs }
{
    let mut end = at;
    for i in 0..jobs {
        end = put_job(out, end, jobs, i, c);
    }
    end
}

// The calendar of a plan with so many jobs, settled in round m: its text from a place on, as far as there is room; answers the place after it.
pub fn put_calendar(out: &mut [u8], at: usize, jobs: usize, m: u64, c: &Calendar) -> usize
    requires at_bound { at ≤ 2 ^ 56 }
    requires jobs_le_most_jobs { jobs ≤ most_jobs }
    ensures stored { Stored out.old at (calendar_text jobs m c.now) out.new result }
    ensures upper_bound { result ≤ at + most_calendar_bytes }
{
    let next = lines::put_line(out, at, b"settled=", m);
    put_jobs(out, next, jobs, c)
}
