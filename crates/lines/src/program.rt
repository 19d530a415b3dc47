// A program's answer to what it has read, written whole: no answer is longer than the slice that is lent.
ghost use Rattle.std.specs.Prelude.{◌≡◌, ◌≤◌, ℕ, List, length, take};
ghost use Rattle.text.specs.Lent.{written};
ghost use Rattle.lines.specs.Written.{written_as, written_whole};

use crate::{LONGEST_TEXT, Refusal};

// A program that prints its answer to a text.
pub trait Program {
    ghost printed: { List ℕ → List ℕ };

    // How long its longest answer is at most.
    ghost most: { ℕ };

    // Its answer to a text, whole, and its length; or 12 and not one byte changed.
    fn answer(text: &[u8], out: &mut [u8]) -> Result<usize, Refusal>
        ensures value { result ≡ written_as (printed text.now) out.old }
        ensures out_after { out.new ≡ written (printed text.now) out.old }
        ensures bound { length (printed text.now) ≤ most };
}

// The answer to the first n bytes of what was read, or to all of them where n is greater, and its length. One byte more is read than the longest text has, so
// that a longer one is recognised.
pub fn answer_whole<P: Program>(read: &[u8; LONGEST_TEXT + 1], n: usize, out: &mut [u8]) -> usize
    requires { P.most ≤ length out.old }
    ensures value { result ≡ length (P.printed (take n read.now)) }
    ensures out_after { out.new ≡ written_whole (P.printed (take n read.now)) out.old }
    ensures upper_bound { result ≤ length out.new }
{
    let text = &read[..n.min(read.len())];
    P::answer(text, out).unwrap()
}
