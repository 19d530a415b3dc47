// The terms of one start, read from the table just before it is eliminated.
ghost use Rattle.std.specs.Prelude.{◌≡◌, ◌-ℤ◌, ℕ, suc, ◌+◌, ◌*◌, ◌≤◌, ◌<◌};
ghost use Rattle.std.proofs.lemmas.List.Edits.{sets};
ghost use Rattle.plan.specs.Accepted.{Accepted};
ghost use Rattle.plan.specs.Limits.{most_jobs};
ghost use Rattle.bounds.specs.Events.{start_node, most_nodes};
ghost use Rattle.bounds.specs.Flat.{cell_of, rows_of, WeightInRange};
ghost use Rattle.bounds.specs.Held.{JudgedTable};
ghost use Rattle.events.specs.Bits.{bits_of, most_events};
ghost use Rattle.calendars.specs.Calendars.{terms_of, least_cs, most_cs};
ghost use Rattle.calendars.specs.Recorded.{weight_by, weight_on, c_on, events_on, cs_on, row_at};

use crate::{MOST_TERMS, Side, Terms};
use bounds::Table;
use clock::WindowTime;
use events::{Events, MOST_EVENTS};
use plan::Plan;

impl Side {
    // The weight by which a node bounds the start s.
    fn weight(self, table: &Table, s: usize, node: usize) -> i32
        requires { (s < most_nodes) × (node < most_nodes) }
        ensures { result ≡ weight_by self table.now.weights s node }
    {
        match self {
            Side::Below => table.weights[s * Table::SIDE + node],
            Side::Above => table.weights[node * Table::SIDE + s],
        }
    }

    // The c of a weight: start >= e + c where e - start <= -c, and start <= e + c where start - e <= c; 0 where there is no bound.
    fn c(self, w: i32) -> i32
        requires { WeightInRange w }
        ensures { result ≡ c_on self (cell_of w) }
    {
        if w == Table::NO_BOUND {
            return 0;
        }
        match self {
            Side::Below => -w,
            Side::Above => w,
        }
    }
}

// One side of a start that has count events before it: the events that bound it, and their c, stored from place row on.
fn put_side(
    cs: &mut [i32; MOST_TERMS],
    table: &Table,
    side: Side,
    row: usize,
    count: usize,
) -> Events
    requires { (count < most_events) × (row + count ≤ most_jobs * most_events) ×
        ((e : ℕ) → e < count → WeightInRange (weight_on side table.now.weights (suc count) e)) }
    ensures { (bits_of result ≡ events_on side table.now.weights count)
        × (cs.new ≡ sets cs.old row (cs_on side table.now.weights count)) }
{
    let mut set = Events::empty();
    for e in 0..count {
        let w = side.weight(table, count + 1, e + 1);
        cs[row + e] = side.c(w);
        set = set.with_if(e, w != Table::NO_BOUND);
    }
    set
}

// The origin's bound with such a c, on the window's own clock.
fn own_time(c: i32, window: i32) -> WindowTime
    ensures { result.0 ≡ c -ℤ window }
{
    WindowTime(i64::from(c) - i64::from(window))
}

// The terms of the job at place i of the next window, from the table whose last node is its start; their c are stored into the job's rows.
pub fn put_terms_of(
    least: &mut [i32; MOST_TERMS],
    most: &mut [i32; MOST_TERMS],
    table: &Table,
    p: Plan,
    i: usize,
) -> Terms
    requires { (Accepted p) × (i < p.jobs) × (JudgedTable p (suc (start_node (p.jobs + i))) (rows_of (suc (start_node (p.jobs + i))) table.now.weights)) }
    ensures value { result ≡ terms_of p i (rows_of (suc (start_node (p.jobs + i))) table.now.weights) }
    ensures least_after { least.new ≡ sets least.old (row_at i) (least_cs p i (rows_of (suc (start_node (p.jobs + i))) table.now.weights)) }
    ensures most_after { most.new ≡ sets most.old (row_at i) (most_cs p i (rows_of (suc (start_node (p.jobs + i))) table.now.weights)) }
{
    let row = i * MOST_EVENTS;
    let count = 2 * (p.jobs + i);
    let s = count + 1;
    let low = Side::Below.c(Side::Below.weight(table, s, 0));
    let high = Side::Above.c(Side::Above.weight(table, s, 0));
    Terms {
        low: own_time(low, p.window),
        high: own_time(high, p.window),
        below: put_side(least, table, Side::Below, row, count),
        above: put_side(most, table, Side::Above, row, count),
    }
}
