// Answer lines, written into a lent slice: each writer stores its line from a place on, as far as there is room, and returns the place after it.
// Stays: (d) a slice and a place in it one by one, as in `crates/text/src/write.rt`.
ghost use Rattle.std.specs.Prelude.{◌≡◌, [], ◌∷◌, ◌++◌, ◌+◌, ◌^◌, ◌≤◌, length};
ghost use Rattle.text.specs.Numbers.{decimal};
ghost use Rattle.text.specs.Lent.{Stored};
ghost use Rattle.plan.specs.Limits.{most_jobs};
ghost use Rattle.session.specs.AnswerText.{turn_text, offer_line, answer_line, answer_job, longest_time, longest_turn, longest_answer, ends_session};

use clock::RunTime;
use runs::{Answer, Offer};
use text::put_ended;

// A time, and the byte after it.
fn put_time(out: &mut [u8], at: usize, t: RunTime, end: u8) -> usize
    requires { at ≤ 2 ^ 61 }
    ensures stored { Stored out.old at (decimal t.0 ++ (end ∷ [])) out.new result }
    ensures upper_bound { result ≤ at + longest_time }
{
    put_ended(out, at, t.0, end)
}

// The key of a start or a finish, then window, job and time, up to the line's end.
fn put_turn(out: &mut [u8], at: usize, key: &[u8], j: u64, i: usize, t: RunTime) -> usize
    requires at_bound { at ≤ 2 ^ 59 }
    requires key_len_bound { length key.now ≤ 2 ^ 59 }
    requires i_le_most_jobs { i ≤ most_jobs }
    ensures stored { Stored out.old at (key.now ++ turn_text j i t.0) out.new result }
    ensures upper_bound { result ≤ at + (length key.now + longest_turn) }
{
    let window = text::put_bytes(out, at, key);
    let job = put_ended(out, window, j, b',');
    let time = put_ended(out, job, i as u64, b',');
    put_time(out, time, t, b'\n')
}

// The line of an offer.
fn put_offered(out: &mut [u8], at: usize, o: Offer) -> usize
    requires { at ≤ 2 ^ 60 }
    ensures stored { Stored out.old at (offer_line o) out.new result }
    ensures upper_bound { result ≤ at + longest_answer }
{
    let from = text::put_bytes(out, at, b"offer=");
    let to = put_time(out, from, o.from, b',');
    put_time(out, to, o.to, b'\n')
}

// The line of an answer: at most seven bytes for each of the eight that a step has at least.
#[tactic(auto, unfolding(crate::specs::AnswerText::answer_line, text::specs::Bytes::bytes))]
pub fn put_answer(out: &mut [u8], at: usize, a: Answer) -> usize
    requires at_bound { at ≤ 2 ^ 59 }
    requires a_bound { answer_job a ≤ most_jobs }
    ensures stored { Stored out.old at (answer_line a) out.new result }
    ensures upper_bound { result ≤ at + longest_answer }
{
    match a {
        Answer::Offered(o) => put_offered(out, at, o),
        Answer::Started { window, job, start } => put_turn(
            out,
            at,
            b"started=",
            window,
            job,
            start,
        ),
        Answer::Final {
            window,
            job,
            finish,
        } => put_turn(out, at, b"final=", window, job, finish),
        Answer::Refused(x) => lines::put_refused(out, at, x),
    }
}

// Whether an answer is the last one of its session.
#[tactic(auto, unfolding(crate::specs::AnswerText::ends_session))]
pub fn ends_session(a: Answer) -> bool
    ensures { result ≡ ends_session a }
{
    match a {
        Answer::Offered(_) | Answer::Started { .. } | Answer::Final { .. } => false,
        Answer::Refused(x) => x.ends(),
    }
}
