// The names of events, as `nf2`: read, numbered.
ghost use Rattle.std.specs.Prelude.{◌≡◌, ◌<◌, [], ◌∷◌};
ghost use Rattle.plan.specs.PlanLines.{is_job};
ghost use Rattle.plan.specs.EventNames.{event_name, letter_of, kind_of, job_of, event_number};

use crate::{EventName, Kind, Letter};

// The window letter of a name.
fn letter_of(b: u8) -> Option<Letter>
    ensures { result ≡ letter_of b }
{
    match b {
        b't' => Some(Letter::This),
        b'n' => Some(Letter::Next),
        _ => None,
    }
}

// The kind of a name.
fn kind_of(b: u8) -> Option<Kind>
    ensures { result ≡ kind_of b }
{
    match b {
        b's' => Some(Kind::Start),
        b'f' => Some(Kind::Finish),
        _ => None,
    }
}

// The job digit of a name.
fn job_of(b: u8) -> Option<u8>
    ensures { result ≡ job_of (b ∷ []) }
{
    match b {
        b'0'..=b'9' => Some(b - b'0'),
        _ => None,
    }
}

// The event that s is the name of.
pub fn event_name(s: &[u8]) -> Option<EventName>
    ensures { result ≡ event_name s.now }
{
    let [letter, kind, job] = s else {
        return None;
    };
    Some(EventName {
        letter: letter_of(*letter)?,
        kind: kind_of(*kind)?,
        job: job_of(*job)?,
    })
}

// A number below 1,024 that no other event has.
pub fn event_number(e: EventName) -> u32
    ensures value { result ≡ event_number e }
    ensures upper_bound { result < 1024 }
{
    u32::from(e.job) * 4 + e.letter as u32 * 2 + e.kind as u32
}

// Whether a job digit names one of the jobs.
pub fn is_job(i: u8, jobs: usize) -> bool
    ensures { result ≡ is_job jobs i }
{
    (1..=jobs).contains(&usize::from(i))
}
