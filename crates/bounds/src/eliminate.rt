// The elimination of one event, in place. The event is the last node of its table; only cells of the nodes before it are written, and what is
// read of the event itself is not.
ghost use Rattle.std.specs.Prelude.{◌≡◌, is_err};
ghost use Rattle.bounds.specs.Flat.{JoinsCells, JoinsRow, JoinsRows, MovesAt, MovesRows, flat, joined_cells, joined_row, joined_rows, moved_at, moved_rows};

use super::{Contradiction, Spans, Table};
use events::Events;

impl Table {
    // The bounds through the start s in row y, where s - y <= w; the set is that of the nodes z for which z - s has a bound, and only these
    // cost a turn.
    fn join_cells(
        &mut self,
        times: &Spans,
        s: usize,
        set: Events,
        y: usize,
        w: i32,
    ) -> Result<(), Contradiction>
        requires { JoinsCells times.now.early times.now.late s set y w self.old.weights }
        ensures { flat (is_err result) self.new.weights ≡ joined_cells times.now.early times.now.late s y w self.old.weights }
    {
        let row = s * Table::SIDE;
        for z in set.members(0, s) {
            let v = self.weights[row + z];
            self.put(times, y, z, v, w)?;
        }
        Ok(())
    }

    // The bounds through the start s in row y.
    fn join_row(
        &mut self,
        times: &Spans,
        s: usize,
        set: Events,
        y: usize,
    ) -> Result<(), Contradiction>
        requires { JoinsRow times.now.early times.now.late s set y self.old.weights }
        ensures { flat (is_err result) self.new.weights ≡ joined_row times.now.early times.now.late s y self.old.weights }
    {
        let w = self.weights[y * Table::SIDE + s];
        if w == Table::NO_BOUND {
            return Ok(());
        }
        self.join_cells(times, s, set, y, w)
    }

    // 'Eliminating a start s: each s - y <= w and z - s <= v give z - y <= w + v.'
    pub(crate) fn join_rows(&mut self, times: &Spans, s: usize) -> Result<(), Contradiction>
        requires { JoinsRows times.now.early times.now.late s self.old.weights }
        ensures { flat (is_err result) self.new.weights ≡ joined_rows times.now.early times.now.late s self.old.weights }
    {
        let set = self.bounded_nodes(s);
        for y in 0..s {
            self.join_row(times, s, set, y)?;
        }
        Ok(())
    }

    // The bounds of the finish f with node y, moved to its start s: f - y <= w by `less` and y - f <= w by `more`.
    fn move_node(
        &mut self,
        times: &Spans,
        s: usize,
        f: usize,
        less: i32,
        more: i32,
        y: usize,
    ) -> Result<(), Contradiction>
        requires { MovesAt times.now.early times.now.late s f less more y self.old.weights }
        ensures { flat (is_err result) self.new.weights ≡ moved_at times.now.early times.now.late s f less more y self.old.weights }
    {
        let ahead = self.weights[y * Table::SIDE + f];
        self.put(times, y, s, ahead, less)?;
        let back = self.weights[f * Table::SIDE + y];
        self.put(times, s, y, back, more)
    }

    // 'Eliminating a finish f of a job with start s: f - y <= w becomes s - y <= w - max; z - f <= w becomes z - s <= w + min.' Here `less`
    // is -max and `more` is min.
    pub(crate) fn move_nodes(
        &mut self,
        times: &Spans,
        s: usize,
        f: usize,
        less: i32,
        more: i32,
    ) -> Result<(), Contradiction>
        requires { MovesRows times.now.early times.now.late s f less more self.old.weights }
        ensures { flat (is_err result) self.new.weights ≡ moved_rows times.now.early times.now.late s f less more self.old.weights }
    {
        for y in 0..f {
            self.move_node(times, s, f, less, more, y)?;
        }
        Ok(())
    }
}
