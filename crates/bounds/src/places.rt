// Events eliminated from a table, in place: what remains is a table on the nodes before them.
ghost use Rattle.std.specs.Prelude.{◌≡◌, suc, ◌+◌, length, is_err};
ghost use Rattle.plan.specs.declared.Plan.{Plan};
ghost use Rattle.bounds.specs.Events.{start_node, finish_node, nodes};
ghost use Rattle.bounds.specs.Elimination.{without_start, without_finish, without_place, eliminated};
ghost use Rattle.bounds.specs.Flat.{rows_of, set_in};
ghost use Rattle.bounds.specs.Held.{TableHeld, TableHeldFor};

use super::{Contradiction, Spans, Table};

impl Table {
    // 'Eliminating a start s': the start at place k, which is the last node.
    pub fn drop_start(&mut self, times: &Spans, k: usize) -> Result<(), Contradiction>
        requires { TableHeld times.now.early times.now.late (suc (start_node k)) self.old.weights }
        ensures weights_after { (p : Plan) → TableHeldFor p times.now.early times.now.late (suc (start_node k)) self.old.weights
            → set_in (start_node k) (is_err result) self.new.weights ≡ without_start p k (rows_of (suc (start_node k)) self.old.weights) }
        ensures weights_len_unchanged { length self.new.weights ≡ length self.old.weights }
    {
        let s = 1 + 2 * k;
        self.join_rows(times, s)
    }

    // 'Eliminating a finish f of a job with start s': the finish at place k, which is the last node. The latest start is max before the latest
    // finish, and the earliest finish is min after the earliest start.
    pub fn drop_finish(&mut self, times: &Spans, k: usize) -> Result<(), Contradiction>
        requires { TableHeld times.now.early times.now.late (suc (finish_node k)) self.old.weights }
        ensures weights_after { (p : Plan) → TableHeldFor p times.now.early times.now.late (suc (finish_node k)) self.old.weights
            → set_in (finish_node k) (is_err result) self.new.weights ≡ without_finish p k (rows_of (suc (finish_node k)) self.old.weights) }
        ensures weights_len_unchanged { length self.new.weights ≡ length self.old.weights }
    {
        let s = 1 + 2 * k;
        let f = 2 + 2 * k;
        let latest_start = times.late[s];
        let latest_finish = times.late[f];
        let earliest_start = times.early[s];
        let earliest_finish = times.early[f];
        let less = latest_start - latest_finish;
        let more = earliest_finish - earliest_start;
        self.move_nodes(times, s, f, less, more)
    }

    // The last place, k: its finish, and then its start.
    fn drop_place(&mut self, times: &Spans, k: usize) -> Result<(), Contradiction>
        requires { TableHeld times.now.early times.now.late (nodes (k + 1)) self.old.weights }
        ensures weights_after { (p : Plan) → TableHeldFor p times.now.early times.now.late (nodes (k + 1)) self.old.weights
            → set_in (nodes k) (is_err result) self.new.weights ≡ without_place p k (rows_of (nodes (k + 1)) self.old.weights) }
        ensures weights_len_unchanged { length self.new.weights ≡ length self.old.weights }
    {
        self.drop_finish(times, k)?;
        self.drop_start(times, k)
    }

    // 'last job first, each finish before its start': the last count places, of those from place low on.
    pub fn drop_places(
        &mut self,
        times: &Spans,
        low: usize,
        count: usize,
    ) -> Result<(), Contradiction>
        requires { TableHeld times.now.early times.now.late (nodes (low + count)) self.old.weights }
        ensures weights_after { (p : Plan) → TableHeldFor p times.now.early times.now.late (nodes (low + count)) self.old.weights
            → set_in (nodes low) (is_err result) self.new.weights ≡ eliminated p low count (rows_of (nodes (low + count)) self.old.weights) }
        ensures weights_len_unchanged { length self.new.weights ≡ length self.old.weights }
    {
        for left in (0..count).rev() {
            let k = low + left;
            self.drop_place(times, k)?;
        }
        Ok(())
    }
}
