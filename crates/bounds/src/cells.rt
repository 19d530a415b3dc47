// One bound put into a table, in place.
ghost use Rattle.std.specs.Prelude.{◌≡◌, is_err};
ghost use Rattle.bounds.specs.Spans.{TimesInRange, judged_at};
ghost use Rattle.bounds.specs.Flat.{SumFits, flat, put_at};

use super::judging::judge;
use super::{Contradiction, Event, Judgement, Spans, Table};

impl Spans {
    // The judgement of z - y <= w between two nodes.
    fn judge_nodes(&self, y: usize, z: usize, w: i32) -> Judgement
        requires { (TimesInRange self.now.early self.now.late y) × (TimesInRange self.now.early self.now.late z) }
        ensures { result ≡ judged_at self.now.early self.now.late y z w }
    {
        let earliest_y = self.early[y];
        let latest_y = self.late[y];
        let earliest_z = self.early[z];
        let latest_z = self.late[z];
        let low = earliest_z - latest_y;
        let high = latest_z - earliest_y;
        let later = latest_z - latest_y;
        let sooner = earliest_z - earliest_y;
        judge(Event::of(y), Event::of(z), low, high, later, sooner, w)
    }
}

impl Table {
    // A bound v, where there is one, moved by a and put at z - y: it is kept where it is less than what stands there and is not left out.
    pub fn put(
        &mut self,
        times: &Spans,
        y: usize,
        z: usize,
        v: i32,
        a: i32,
    ) -> Result<(), Contradiction>
        requires { (TimesInRange times.now.early times.now.late y) × (TimesInRange times.now.early times.now.late z) × (SumFits v a) }
        ensures { flat (is_err result) self.new.weights ≡ put_at times.now.early times.now.late y z v a self.old.weights }
    {
        if v == Table::NO_BOUND {
            return Ok(());
        }
        let w = v + a;
        let place = y * Table::SIDE + z;
        let present = self.weights[place];
        if present <= w {
            return Ok(());
        }
        match times.judge_nodes(y, z, w) {
            Judgement::Contradiction => Err(Contradiction),
            Judgement::LeftOut => {
                self.weights[place] = Table::NO_BOUND;
                Ok(())
            }
            Judgement::Kept => {
                self.weights[place] = w;
                Ok(())
            }
        }
    }
}
