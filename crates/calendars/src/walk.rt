// The calendar as a value, made by a walk over the next window's jobs, last job first.
ghost use Rattle.std.specs.Prelude.{◌≡◌, false, ◌+◌};
ghost use Rattle.plan.specs.declared.Plan.{Plan};
ghost use Rattle.bounds.specs.Events.{nodes};
ghost use Rattle.bounds.specs.Elimination.{eliminated};
ghost use Rattle.bounds.specs.Flat.{rows_of};
ghost use Rattle.bounds.specs.Held.{TableHeldFor};
ghost use Rattle.rounds.specs.Rounds.{is_contradictory};
ghost use Rattle.calendars.specs.Calendars.{before_starts, calendar_of, no_calendar};

use crate::recorded::put_terms_of;
use crate::{Calendar, MOST_TERMS, Terms};
use bounds::{Spans, Table};
use clock::WindowTime;
use events::Events;
use plan::{MOST_JOBS, Plan};

// A calendar that says nothing.
pub fn empty_calendar() -> Calendar
    ensures { (p : Plan) → result ≡ no_calendar p }
{
    let empty = Events::empty();
    let none = Terms {
        low: WindowTime(0),
        high: WindowTime(0),
        below: empty,
        above: empty,
    };
    Calendar {
        terms: [none; MOST_JOBS],
        at_least: [0i32; MOST_TERMS],
        at_most: [0i32; MOST_TERMS],
    }
}

// 'Calendar: with the settled set, the bounds on each start just before it is eliminated.' The table holds the settled set on the next window, C(0) on this
// one and the bounds between, and its elimination gives no contradiction.
pub fn calendar_of(p: Plan, joined: &Table, times: &Spans) -> Calendar
    requires { (TableHeldFor p times.now.early times.now.late (nodes (p.jobs + p.jobs)) joined.now.weights)
        × (is_contradictory (eliminated p p.jobs p.jobs (rows_of (nodes (p.jobs + p.jobs)) joined.now.weights)) ≡ false) }
    ensures { result ≡ calendar_of p (before_starts p p.jobs (rows_of (nodes (p.jobs + p.jobs)) joined.now.weights)) }
{
    let mut c = empty_calendar();
    let mut table = *joined;
    for i in (0..p.jobs).rev() {
        let k = p.jobs + i;
        // A settled set gives no contradiction, neither here nor below.
        let _ = table.drop_finish(times, k);
        c.terms[i] = put_terms_of(&mut c.at_least, &mut c.at_most, &table, p, i);
        let _ = table.drop_start(times, k);
    }
    c
}
