// What ends a session before the end of its text.
ghost use Rattle.std.specs.Prelude.{◌≡◌};
ghost use Rattle.lines.specs.Answers.{reported, part_told};
ghost use Rattle.session.specs.StepAt.{lines_read, Ends};
ghost use Rattle.session.specs.SessionRead.{session_read};

use crate::StepLines;
use crate::settled::settle;
use lines::{FaultyLine, FaultyPart, faulty_part};

// Reads step lines to their end, or to the first that is refused.
fn read_steps(lines: StepLines) -> Result<(), FaultyLine>
    ensures { Ends lines.entry.text.now (lines_read lines.entry) result }
{
    for step in lines {
        step?;
    }
    Ok(())
}

// Reads a session to its end, or to what ends it before.
fn read_session(text: &[u8]) -> Result<(), FaultyLine>
    ensures { Ends text.now (session_read text.now) result }
{
    let session = settle(text)?;
    read_steps(session.lines)
}

// What ends a session: the refusal of its plan, of its verdict, or of the first step line that is refused by 1 or 2, with the faulty line as a part of the
// text, without its LF. The part is empty for 4 and 5.
pub fn refused_in_session(text: &[u8]) -> Result<(), FaultyPart<'_>>
    ensures { part_told result ≡ reported (session_read text.now) }
{
    match read_session(text) {
        Ok(()) => Ok(()),
        Err(fault) => Err(faulty_part(text, fault)),
    }
}
