// A session up to its steps: its plan read, and decided.
ghost use Rattle.session.specs.Settled.{HeadSettled};

use crate::{Session, StepLines};
use calendars::decide;
use lines::FaultyLine;

// The session of a text, or the refusal of its plan or of its plan's verdict. A verdict stands in no line: its faulty line is past the text's end.
pub fn settle(text: &[u8]) -> Result<Session<'_>, FaultyLine>
    ensures { HeadSettled text.now result }
{
    let head = plan::read_head(text)?;
    match decide(head.plan) {
        Ok(decision) => Ok(Session {
            plan: head.plan,
            calendar: decision.calendar,
            lines: StepLines {
                text,
                at: head.at,
                line: head.line,
            },
        }),
        Err(refusal) => Err(FaultyLine {
            refusal,
            at: text.len(),
        }),
    }
}
