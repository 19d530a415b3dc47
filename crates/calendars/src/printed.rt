// The calendar program's answer to what it has read, written whole: no plan's calendar is longer than the array that is lent.
ghost use Rattle.std.specs.Prelude.{◌≡◌, ◌≤◌, length, take};
ghost use Rattle.calendars.specs.CalendarText.{calendar_output, most_calendar_bytes};
ghost use Rattle.lines.specs.Written.{written_whole};

use crate::MOST_BYTES;
use lines::{LONGEST_TEXT, Program, Refusal};

struct CalendarProgram;

impl Program for CalendarProgram {
    ghost printed = { calendar_output };

    ghost most = { most_calendar_bytes };

    fn answer(text: &[u8], out: &mut [u8]) -> Result<usize, Refusal> {
        crate::program::answer(text, out)
    }
}

// Stays: (a) a function for each program: decision 30, the arrays' sizes are in its type.
// The answer to the first n bytes of what was read, or to all of them where n is greater, and its length. No text is refused by 12.
pub fn answer_read(read: &[u8; LONGEST_TEXT + 1], n: usize, out: &mut [u8; MOST_BYTES]) -> usize
    ensures value { result ≡ length (calendar_output (take n read.now)) }
    ensures out_after { out.new ≡ written_whole (calendar_output (take n read.now)) out.old }
    ensures upper_bound { result ≤ length out.new }
{
    lines::answer_whole::<CalendarProgram>(read, n, out)
}
