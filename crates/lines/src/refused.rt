// The one line of a refusal, written into a lent slice.
// Stays: (d) a slice and a place in it one by one, as in `crates/text/src/write.rt`.
ghost use Rattle.std.specs.Prelude.{◌≡◌, ◌+◌, ◌^◌, ◌≤◌, length, ⊤};
ghost use Rattle.text.specs.Lent.{Stored, written};
ghost use Rattle.lines.specs.Refusals.{refused_line};
ghost use Rattle.lines.specs.Written.{written_as};

use crate::Refusal;
use crate::lent::{Text, write};

// The line of a refusal, from a place on, as far as there is room; answers the place after it.
pub fn put_refused(out: &mut [u8], at: usize, x: Refusal) -> usize
    requires { at ≤ 2 ^ 59 }
    ensures stored { Stored out.old at (refused_line x) out.new result }
    ensures upper_bound { result ≤ at + 50 }
{
    let n = x.number();
    let d = x.value();
    let first = text::put_bytes(out, at, b"refused=");
    let second = text::put_ended(out, first, n, b',');
    text::put_ended(out, second, d, b'\n')
}

// The line of the refusal.
impl Text for Refusal {
    ghost text = { refused_line };

    ghost can_put = { λ _. ⊤ };

    ghost most = { λ _. 50 };

    fn most(&self) -> usize {
        50
    }

    fn put(&self, out: &mut [u8]) -> usize {
        put_refused(out, 0, *self)
    }
}

// The whole line of a refusal, or 12 and not one byte changed. It has at most 50 bytes.
pub fn write_refused(out: &mut [u8], x: Refusal) -> Result<usize, Refusal>
    ensures value { result ≡ written_as (refused_line x) out.old }
    ensures out_after { out.new ≡ written (refused_line x) out.old }
    ensures x_len_bound { length (refused_line x) ≤ 50 }
{
    write(&x, out)
}
