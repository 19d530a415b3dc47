// A plan's text, written into a lent slice.
// Stays: (d) a slice and a place in it one by one, as in `crates/text/src/write.rt`.
ghost use Rattle.std.specs.Prelude.{◌≡◌, ℕ, List, [], ◌∷◌, ◌++◌, length, ◌+◌, ◌*◌, ◌^◌, ◌≤◌, ⊤};
ghost use Rattle.std.specs.List.{flat_map};
ghost use Rattle.plan.specs.Limits.{most_bounds};
ghost use Rattle.text.specs.Lent.{Stored};
ghost use Rattle.plan.specs.EventNames.{letter_byte, kind_byte, name_bytes};
ghost use Rattle.plan.specs.PlanWritten.{jobs_text, bounds_text, plan_text};
ghost use Rattle.values.specs.PlanWriting.{written_plan, plan_bytes, most_plan_bytes};

use crate::plan_value::judge_plan;
use lines::{Refusal, Text};
use plan::{Bound, EventName, Job, Kind, Letter, MOST_BOUNDS, MOST_JOBS, Plan};

// No plan's text has more bytes: five lines of at most 28, and nine jobs and 64 bounds of at most 120.
const MOST_PLAN_BYTES: usize = 9_000;

// The byte of a window letter.
// Stays: (d) no `impl From`, since neither the letter nor the byte is a type of this crate.
fn letter_byte(l: Letter) -> u8
    ensures { result ≡ letter_byte l }
{
    match l {
        Letter::This => b't',
        Letter::Next => b'n',
    }
}

// The byte of a kind.
// Stays: (d) as `letter_byte`.
fn kind_byte(k: Kind) -> u8
    ensures { result ≡ kind_byte k }
{
    match k {
        Kind::Start => b's',
        Kind::Finish => b'f',
    }
}

// The name of an event, and the byte after it.
fn put_name(out: &mut [u8], at: usize, e: EventName, end: u8) -> usize
    requires { at ≤ 2 ^ 60 }
    ensures stored { Stored out.old at (name_bytes e ++ (end ∷ [])) out.new result }
    ensures upper_bound { result ≤ at + 23 }
{
    let second = text::put_byte(out, at, letter_byte(e.letter));
    let third = text::put_byte(out, second, kind_byte(e.kind));
    text::put_ended(out, third, u64::from(e.job), end)
}

// A part of a plan's text: a job, or a bound.
trait Part: Copy {
    // Its lines, which are at most 120 bytes.
    ghost text: { Self → List ℕ };

    fn put(self, out: &mut [u8], at: usize) -> usize
        requires { at ≤ 2 ^ 59 }
        ensures stored { Stored out.old at (text self) out.new result }
        ensures upper_bound { result ≤ at + 120 };
}

impl Part for Job {
    ghost text = { λ j. jobs_text (j ∷ []) [] };

    // The four lines of a job.
    fn put(self, out: &mut [u8], at: usize) -> usize {
        let second = lines::put_line(out, at, b"min=", i64::from(self.min));
        let third = lines::put_line(out, second, b"max=", i64::from(self.max));
        let fourth = lines::put_line(out, third, b"release=", i64::from(self.release));
        lines::put_line(out, fourth, b"deadline=", i64::from(self.deadline))
    }
}

impl Part for Bound {
    ghost text = { λ d. bounds_text (d ∷ []) };

    // The line of a bound.
    fn put(self, out: &mut [u8], at: usize) -> usize {
        let first = text::put_bytes(out, at, b"bound=");
        let second = put_name(out, first, self.a, b',');
        let number = put_name(out, second, self.b, b',');
        text::put_ended(out, number, i64::from(self.c), b'\n')
    }
}

// Parts of a plan's text, one after the other.
fn put_parts<T: Part>(out: &mut [u8], at: usize, parts: &[T]) -> usize
    requires at_bound { at ≤ 2 ^ 58 }
    requires parts_len_bound { length parts.now ≤ most_bounds }
    ensures stored { Stored out.old at (flat_map T.text parts.now) out.new result }
    ensures upper_bound { result ≤ at + 120 * length parts.now }
{
    let mut end = at;
    for part in parts {
        end = part.put(out, end);
    }
    end
}

// A plan's text, from a place on, as far as there is room; answers the place after it.
fn put_plan(out: &mut [u8], at: usize, p: Plan) -> usize
    requires { at ≤ 2 ^ 57 }
    ensures stored { Stored out.old at (plan_text p) out.new result }
    ensures upper_bound { result ≤ at + most_plan_bytes }
{
    let second = lines::put_line(out, at, b"window=", i64::from(p.window));
    let third = lines::put_line(out, second, b"rounds=", p.rounds);
    let fourth = lines::put_line(out, third, b"last=", p.last);
    let fifth = lines::put_line(out, fourth, b"jobs=", p.jobs as u64);
    let after_jobs = put_parts(out, fifth, &p.job[..p.jobs.min(MOST_JOBS)]);
    let first_bound = lines::put_line(out, after_jobs, b"bounds=", p.bounds as u64);
    put_parts(out, first_bound, &p.bound[..p.bounds.min(MOST_BOUNDS)])
}

// A plan, by its text.
#[derive(Clone, Copy)]
struct PlanText(Plan);

impl Text for PlanText {
    ghost text = { λ t. plan_text t.0 };

    ghost can_put = { λ _. ⊤ };

    ghost most = { λ _. most_plan_bytes };

    fn most(&self) -> usize {
        MOST_PLAN_BYTES
    }

    fn put(&self, out: &mut [u8]) -> usize {
        put_plan(out, 0, self.0)
    }
}

// A plan, judged as its text would be, and then its whole text; or its refusal, or 12, and not one byte changed.
pub fn write_plan(p: Plan, out: &mut [u8]) -> Result<usize, Refusal>
    ensures value { result ≡ written_plan p out.old }
    ensures out_after { out.new ≡ plan_bytes p out.old }
{
    judge_plan(p)?;
    lines::write(&PlanText(p), out)
}
