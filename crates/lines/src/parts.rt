// A refusal reported, with its faulty line as a part of the text.
ghost use Rattle.std.specs.Prelude.{◌≡◌, drop};
ghost use Rattle.text.specs.Lines.{LF, before};

use crate::{FaultyLine, FaultyPart};

// The line that begins at a place of a text, without its LF; nothing past the text's end.
fn line_at(s: &[u8], at: usize) -> &[u8]
    ensures { result.now ≡ before LF (drop at s.now) }
{
    match s.get(at..) {
        Some(rest) => &rest[..text::len_to(rest, b'\n')],
        None => &s[..0],
    }
}

// A fault of the text s, with its line as a part of it.
pub fn faulty_part<'a>(s: &'a [u8], fault: FaultyLine) -> FaultyPart<'a>
    ensures refusal { result.refusal ≡ fault.refusal }
    ensures line { result.line.now ≡ before LF (drop fault.at s.now) }
{
    FaultyPart {
        refusal: fault.refusal,
        line: line_at(s, fault.at),
    }
}
