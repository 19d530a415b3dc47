// The dispatch program's answer to what it has read, written whole: the array has room for every session's answer.
ghost use Rattle.std.specs.Prelude.{◌≡◌, ◌≤◌, length, take};
ghost use Rattle.lines.specs.Written.{written_whole};
ghost use Rattle.session.specs.Sessions.{dispatch_output, most_session_bytes};

use crate::MOST_BYTES;
use lines::{LONGEST_TEXT, Program, Refusal};

// The dispatch program.
struct Dispatch;

impl Program for Dispatch {
    ghost printed = { dispatch_output };

    ghost most = { most_session_bytes };

    fn answer(text: &[u8], out: &mut [u8]) -> Result<usize, Refusal> {
        crate::program::answer(text, out)
    }
}

// Stays: (a) a function for each program: decision 30, the arrays' sizes are in its type.
// The answer to the first n bytes of what was read, or to all of them where n is greater, and its length. One byte more is read than the longest text has, so
// that a longer one is recognised.
pub fn answer_read(read: &[u8; LONGEST_TEXT + 1], n: usize, out: &mut [u8; MOST_BYTES]) -> usize
    ensures value { result ≡ length (dispatch_output (take n read.now)) }
    ensures out_after { out.new ≡ written_whole (dispatch_output (take n read.now)) out.old }
    ensures upper_bound { result ≤ length out.new }
{
    lines::answer_whole::<Dispatch>(read, n, out)
}
