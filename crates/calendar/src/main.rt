// The calendar program: standard input is a plan's text; it prints the plan's calendar, or the one line of its refusal. A read that fails ends the text, as its
// end does: no part of a plan's text is itself a plan's text.
#![tactic(auto)]

use calendars::MOST_BYTES;
use lines::{LONGEST_TEXT, read_full};

fn main(rt: HostRuntime) {
    // One byte more than the longest text has, so that a longer one is recognised.
    let mut text = [0u8; LONGEST_TEXT + 1];
    let n = read_full(&mut rt.stdin(), &mut text);
    let mut out = [0u8; MOST_BYTES];
    let m = calendars::answer_read(&text, n, &mut out);
    if rt.write_all(&out[..m]).is_err() {
        let _ = rt.eprintln("calendar: not all was written");
    }
}
