// The refusal of a plan's text, judged to its end.
ghost use Rattle.std.specs.Prelude.{◌≡◌};
ghost use Rattle.lines.specs.Answers.{part_told, reported};
ghost use Rattle.rounds.specs.TextVerdict.{settled_alone};

use crate::decided::decide;
use lines::{FaultyLine, FaultyPart, faulty_part};

// What refuses a text that is to be a plan and nothing else, its verdict included, with the faulty line as a part of the text, without its LF. The part is
// empty for 4 and 5.
pub fn refused_in_plan<'a>(s: &'a [u8]) -> Result<(), FaultyPart<'a>>
    ensures { part_told result ≡ reported (settled_alone s.now) }
{
    match plan::read_plan(s) {
        Ok(read) => match decide(read.plan) {
            Ok(_) => Ok(()),
            Err(refusal) => {
                let at = s.len();
                Err(faulty_part(s, FaultyLine { refusal, at }))
            }
        },
        Err(fault) => Err(faulty_part(s, fault)),
    }
}
