// The dispatch program: standard input is a plan followed by steps; it prints the answers to the steps, or the one line of a plan that is refused. A read that
// fails ends the text, as its end does: the steps before it are answered.
#![tactic(auto)]

use lines::{LONGEST_TEXT, read_full};
use session::MOST_BYTES;

fn main(rt: HostRuntime) {
    // One byte more than the longest text has, so that a longer one is recognised.
    let mut text = [0u8; LONGEST_TEXT + 1];
    let n = read_full(&mut rt.stdin(), &mut text);
    let mut out = [0u8; MOST_BYTES];
    let m = session::answer_read(&text, n, &mut out);
    if rt.write_all(&out[..m]).is_err() {
        let _ = rt.eprintln("dispatch: not all was written");
    }
}
