// A line that is a key and a number.
ghost use Rattle.std.specs.Prelude.{◌≡◌, ◌≤◌, length};
ghost use Rattle.text.specs.Numbers.{number_after};
ghost use Rattle.lines.specs.Reading.{lined_number};
ghost use Rattle.plan.specs.ReadAt.{LineAt};

use crate::line_at::read_line;
use lines::{Fault, FaultyLine};

// The number of a line without its LF.
fn keyed_number(l: &[u8], key: &[u8], lo: i32, hi: i32) -> Result<i32, Fault>
    ensures { result ≡ lined_number (number_after key.now lo hi l.now) }
{
    let z = text::number_after(l, key, i64::from(lo), i64::from(hi))?;
    Ok(z as i32)
}

// The number of the line that begins at a place, and where the next line begins.
pub fn read_number_line(
    s: &[u8],
    at: usize,
    line: usize,
    key: &[u8],
    lo: i32,
    hi: i32,
) -> Result<(i32, usize), FaultyLine>
    requires { at ≤ length s.now }
    ensures { LineAt s.now key.now lo hi at line result }
{
    read_line(s, at, line, |l| keyed_number(l, key, lo, hi))
}
