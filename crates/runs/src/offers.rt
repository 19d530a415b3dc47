// The offer for the job whose turn it is, and whether there is one.

ghost use Rattle.std.specs.Prelude.{◌≡◌};
ghost use Rattle.runs.specs.ValueLimits.{job_of_phase};
ghost use Rattle.runs.specs.Offers as offers;
ghost use Rattle.runs.specs.Inside.{OfferInside, StepInside};

use crate::ends::end_of;
use crate::seen::first_seen;
use crate::{Offer, Opening, Phase, Run};
use calendars::Calendar;
use events::MOST_EVENTS;
use lines::Refusal;
use plan::Plan;

// The offer for job i in window j.
fn offer_of(p: &Plan, c: &Calendar, run: &Run, j: u64, i: usize) -> Offer
    requires { OfferInside (offers.turn_of p.now c.now i) c.now.at_least c.now.at_most run.now j i }
    ensures { result ≡ offers.offer_of p.now c.now run.now j i }
{
    let place = i - 1;
    let terms = c.terms[place];
    let row = place * MOST_EVENTS;
    let count = 2 * (p.jobs + place);
    let first = first_seen(p.jobs, run.before);
    let below = terms.below.members(first, count);
    let above = terms.above.members(first, count);
    let earliest = clock::on_run(p.window, j, terms.low);
    let latest = clock::on_run(p.window, j, terms.high);
    let from = end_of(
        |t, u| t.max(u),
        earliest,
        below,
        &run.seen,
        &c.at_least,
        row,
    );
    let to = end_of(|t, u| t.min(u), latest, above, &run.seen, &c.at_most, row);
    Offer { from, to }
}

// An offer whose lower end is above its upper end is empty: 11.
fn opened(window: u64, job: usize, offer: Offer) -> Result<Opening, Refusal>
    ensures { result ≡ offers.opened window job offer }
{
    if offer.to < offer.from {
        return Err(Refusal::EmptyOffer);
    }
    Ok(Opening { window, job, offer })
}

// What there is for an ask or a start: 10 once the run is over, 6 while a job runs, 11 where the offer is empty, or the offer.
#[tactic(auto, unfolding(crate::specs::Offers::opening_at))]
#[inline]
pub fn opening(p: &Plan, c: &Calendar, run: &Run) -> Result<Opening, Refusal>
    requires { StepInside (offers.turn_of p.now c.now (job_of_phase run.now.phase)) c.now.at_least c.now.at_most run.now }
    ensures { result ≡ offers.opening p.now c.now run.now }
{
    match run.phase {
        Phase::Waiting { window, job } => {
            if p.last < window {
                return Err(Refusal::Over);
            }
            opened(window, job, offer_of(p, c, run, window, job))
        }
        Phase::Running { .. } => Err(Refusal::Running),
    }
}
