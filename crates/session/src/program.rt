// The dispatch program, from the bytes of its input to those of its output.
ghost use Rattle.std.specs.Prelude.{◌≡◌, ◌≤◌, length};
ghost use Rattle.text.specs.Lent.{written};
ghost use Rattle.session.specs.Sessions.{dispatch_output, session_answer, most_session_bytes};

use crate::settled::settle;
use lines::{Refusal, write, write_refused};

// The answer to a session text: its plan's one line, where the plan is refused, and else the answers to its steps; 12 and not one byte changed, where it has
// no room. 458,808 bytes are room for every text.
pub fn answer(text: &[u8], out: &mut [u8]) -> Result<usize, Refusal>
    ensures value { result ≡ session_answer text.now out.old }
    ensures out_after { out.new ≡ written (dispatch_output text.now) out.old }
    ensures text_len_bound { length (dispatch_output text.now) ≤ most_session_bytes }
{
    match settle(text) {
        Ok(session) => write(&session, out),
        Err(fault) => write_refused(out, fault.refusal),
    }
}
