// A step line, read.
ghost use Rattle.std.specs.Prelude.{◌≡◌, ◌+◌, ◌-◌, ◌≤◌, length, drop};
ghost use Rattle.std.specs.Iterator.{at_most};
ghost use Rattle.lines.specs.ReadAt.{at_told};
ghost use Rattle.session.specs.StepRead.{is_text, start_in, finish_in, step_in, step_line};
ghost use Rattle.session.specs.StepAt.{StepWithin, StepGiven};

use crate::StepLines;
use clock::RunTime;
use lines::{Fault, FaultyLine, Refusal};
use runs::{Choice, LAST_TIME, Step};

// Stays: (b) byte by byte and no `==`, which is a call at every line of a session: with it sessions of asks took longer (docs/LOOK-BACK.md, d1).
// Whether l is just the text t.
fn is_text(l: &[u8], t: &[u8]) -> bool
    ensures { result ≡ is_text t.now l.now }
{
    if l.len() != t.len() {
        return false;
    }
    for k in 0..t.len() {
        if l[k] != t[k] {
            return false;
        }
    }
    true
}

// What follows `start=`: `auto`, or a time.
fn start_in(s: &[u8]) -> Result<Step, Fault>
    ensures { result ≡ start_in s.now }
{
    if is_text(s, b"auto") {
        return Ok(Step::Start(Choice::Auto));
    }
    let t = text::read_number(s, 0, LAST_TIME)?;
    Ok(Step::Start(Choice::At(RunTime(t))))
}

// What follows `finish=`: a time.
fn finish_in(s: &[u8]) -> Result<Step, Fault>
    ensures { result ≡ finish_in s.now }
{
    let t = text::read_number(s, 0, LAST_TIME)?;
    Ok(Step::Finish(RunTime(t)))
}

// The step that l is the line of, without its LF.
fn read_step(l: &[u8]) -> Result<Step, Fault>
    ensures { result ≡ step_in l.now }
{
    if is_text(l, b"ask=offer") {
        return Ok(Step::Ask);
    }
    if let Some(s) = l.strip_prefix(b"start=") {
        return start_in(s);
    }
    if let Some(s) = l.strip_prefix(b"finish=") {
        return finish_in(s);
    }
    Err(Fault::Form)
}

// The step of the line that begins at a place, and where the next line begins; or why the line is refused.
// Stays: (a) the project's rule that a public promise is an equation (tests/promises) keeps the plan's `read_line`, which would serve here, inside its crate.
fn read_step_at(s: &[u8], at: usize, line: usize) -> Result<(Step, usize), FaultyLine>
    requires { at ≤ length s.now }
    ensures line_value { step_line (drop at s.now) line ≡ at_told s.now (line + 1) result }
    ensures step_within { StepWithin at (length s.now) result }
{
    let next = text::next_line(s, at);
    if s.len() < next {
        return Err(FaultyLine {
            refusal: Refusal::Form(line),
            at,
        });
    }
    match read_step(&s[at..next - 1]) {
        Ok(st) => Ok((st, next)),
        Err(f) => Err(FaultyLine {
            refusal: f.at(line),
            at,
        }),
    }
}

// The steps of the lines, one after the other, up to the first line that is refused.
impl Iterator for StepLines<'_> {
    type Item = Result<Step, FaultyLine>;

    ghost next_gives = { StepGiven };

    ghost remaining = { λ l. at_most (length l.text.now - l.at) };

    fn next(&mut self) -> Option<Result<Step, FaultyLine>> {
        if self.at >= self.text.len() {
            return None;
        }
        let read = read_step_at(self.text, self.at, self.line);
        match read {
            Ok((st, next)) => {
                self.at = next;
                self.line += 1;
                Some(Ok(st))
            }
            Err(fault) => {
                self.at = self.text.len();
                Some(Err(fault))
            }
        }
    }
}
