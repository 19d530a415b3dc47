// The answers of a settled session, as a text that is written into a lent slice.
ghost use Rattle.std.specs.Prelude.{◌+◌, ◌*◌, ◌-◌, length, ⊤};
ghost use Rattle.session.specs.AnswerText.{longest_answer};
ghost use Rattle.session.specs.Settled.{session_lines};

use crate::steps::put_answers;
use crate::{LONGEST_ANSWER, Session};
use lines::Text;

// The answers to the steps of the session: at most seven bytes for each byte of a step, and one answer more.
impl Text for Session<'_> {
    ghost text = { session_lines };

    ghost can_put = { λ _. ⊤ };

    ghost most = { λ h. 7 * (length h.lines.text.now - h.lines.at) + longest_answer };

    fn most(&self) -> usize {
        7 * (self.lines.text.len() - self.lines.at) + LONGEST_ANSWER
    }

    fn put(&self, out: &mut [u8]) -> usize {
        let mut run = runs::new_run();
        put_answers(self.lines, &self.plan, &self.calendar, &mut run, out, 0)
    }
}
