// 'A window's own bounds' and the bounds between windows, put into a table.
ghost use Rattle.std.specs.Prelude.{◌≡◌, ◌+◌, ◌*◌, ◌<◌, [], ◌∷◌, is_err};
ghost use Rattle.bounds.specs.Events.{event_of, most_nodes};
ghost use Rattle.bounds.specs.Flat.{AllTimesInRange, flat, put_bounds};
ghost use Rattle.bounds.specs.Held.{TimesHeld};
ghost use Rattle.rounds.specs.Given.{in_order, orders, own_bounds, between_bounds};
ghost use Rattle.rounds.specs.Put.{range_of, range_of_place, ranges_of};

use crate::given::put_given;
use bounds::{Contradiction, Spans, Table};
use plan::Plan;

// 'each event lies between earliest and latest': the event of node y.
fn put_range(table: &mut Table, times: &Spans, y: usize) -> Result<(), Contradiction>
    requires { (AllTimesInRange times.now.early times.now.late) × (y < most_nodes) }
    ensures { flat (is_err result) table.new.weights ≡ put_bounds times.now.early times.now.late
        (range_of times.now.early times.now.late (event_of y)) table.old.weights }
{
    let latest = times.late[y];
    table.put(times, 0, y, latest, 0)?;
    let earliest = times.early[y];
    let back = 0 - earliest;
    table.put(times, y, 0, back, 0)
}

// The start and the finish of place k.
fn put_place(table: &mut Table, times: &Spans, k: usize) -> Result<(), Contradiction>
    requires { (AllTimesInRange times.now.early times.now.late) × (2 + 2 * k < most_nodes) }
    ensures { flat (is_err result) table.new.weights ≡ put_bounds times.now.early times.now.late
        (range_of_place times.now.early times.now.late k) table.old.weights }
{
    put_range(table, times, 1 + 2 * k)?;
    put_range(table, times, 2 + 2 * k)
}

// The events of the first count places, last place first.
fn put_ranges(table: &mut Table, times: &Spans, count: usize) -> Result<(), Contradiction>
    requires { (AllTimesInRange times.now.early times.now.late) × (2 * count < most_nodes) }
    ensures { flat (is_err result) table.new.weights ≡ put_bounds times.now.early times.now.late
        (ranges_of times.now.early times.now.late count) table.old.weights }
{
    for k in (0..count).rev() {
        put_place(table, times, k)?;
    }
    Ok(())
}

// The finish at place k is at most the start at the next place.
fn put_order(table: &mut Table, times: &Spans, k: usize) -> Result<(), Contradiction>
    requires { (AllTimesInRange times.now.early times.now.late) × (3 + 2 * k < most_nodes) }
    ensures { flat (is_err result) table.new.weights ≡ put_bounds times.now.early times.now.late (in_order k ∷ []) table.old.weights }
{
    table.put(times, 3 + 2 * k, 2 + 2 * k, 0, 0)
}

// 'the finish of job i is at most the start of job i+1', of the first count places and those that follow them, last place first.
fn put_orders(table: &mut Table, times: &Spans, count: usize) -> Result<(), Contradiction>
    requires { (AllTimesInRange times.now.early times.now.late) × (2 + 2 * count < most_nodes) }
    ensures { flat (is_err result) table.new.weights ≡ put_bounds times.now.early times.now.late (orders count) table.old.weights }
{
    for k in (0..count).rev() {
        put_order(table, times, k)?;
    }
    Ok(())
}

// 'A window's own bounds'.
pub fn put_own(table: &mut Table, times: &Spans, p: Plan) -> Result<(), Contradiction>
    requires { TimesHeld p times.now.early times.now.late }
    ensures { flat (is_err result) table.new.weights ≡ put_bounds times.now.early times.now.late (own_bounds p) table.old.weights }
{
    put_ranges(table, times, p.jobs)?;
    let last = p.jobs - 1;
    put_orders(table, times, last)?;
    put_given(table, times, p, false)
}

// The bounds between windows.
pub fn put_between(table: &mut Table, times: &Spans, p: Plan) -> Result<(), Contradiction>
    requires { TimesHeld p times.now.early times.now.late }
    ensures { flat (is_err result) table.new.weights ≡ put_bounds times.now.early times.now.late (between_bounds p) table.old.weights }
{
    let last = p.jobs - 1;
    put_order(table, times, last)?;
    put_given(table, times, p, true)
}
