// A line at a place of the text.
ghost use Rattle.std.specs.Prelude.{◌≤◌, length};
ghost use Rattle.std.specs.Fn.{FnOnceReturnsAt};
ghost use Rattle.plan.specs.ReadAt.{LineTaken};

use lines::{Fault, FaultyLine, Refusal};

// The line that begins at a place, read for itself, and where the next line begins.
// Stays: (d) text, place and line number one by one, as a reader of the definitions takes the rest of the text and the number of its line.
pub fn read_line<T, F: FnOnce(&[u8]) -> Result<T, Fault>>(
    s: &[u8],
    at: usize,
    line: usize,
    read: F,
) -> Result<(T, usize), FaultyLine>
    requires within { at ≤ length s.now }
    requires callable { F.IsAlwaysCallable read }
    ensures { LineTaken (λ l v. FnOnceReturnsAt F.FnOnce read l v) s.now at line result }
{
    let next = text::next_line(s, at);
    if s.len() < next {
        return Err(FaultyLine {
            refusal: Refusal::Form(line),
            at,
        });
    }
    match read(&s[at..next - 1]) {
        Ok(value) => Ok((value, next)),
        Err(fault) => Err(FaultyLine {
            refusal: fault.at(line),
            at,
        }),
    }
}
