// The thin line reader: a text, and a place of it at which a line begins.
ghost use Rattle.std.specs.Prelude.{◌≡◌, drop};
ghost use Rattle.text.specs.Lines.{LF, len_to, next_line};

use crate::line::len_to;

#[derive(Clone, Copy)]
struct LineReader<'a> {
    text: &'a [u8],
    at: usize,
}

impl<'a> LineReader<'a> {
    // How many bytes its line has, without the LF; all that are left, where it is not ended.
    fn line_len(self) -> usize
        ensures { result ≡ len_to LF (drop self.entry.at self.entry.text.now) }
    {
        match self.text.get(self.at..) {
            Some(rest) => len_to(rest, b'\n'),
            None => 0,
        }
    }

    // The reader after its line and the LF; past the text's end, where the LF would stand there.
    fn past_line(self) -> LineReader<'a>
        ensures { (result.text ≡ self.entry.text) × (result.at ≡ next_line self.entry.text.now self.entry.at) }
    {
        let at = match self.at.checked_add(self.line_len()) {
            Some(end) if end <= self.text.len() => end + 1,
            _ => self.text.len() + 1,
        };
        LineReader {
            text: self.text,
            at,
        }
    }
}

// Where the line ends that begins at a place, its LF included; past the text's end, where it is not ended.
pub fn next_line(text: &[u8], at: usize) -> usize
    ensures { result ≡ next_line text.now at }
{
    LineReader { text, at }.past_line().at
}
