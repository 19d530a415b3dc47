// A line that is a key and a number, written into a lent slice.
// Stays: (d) a slice and a place in it one by one, as in `crates/text/src/write.rt`.
ghost use Rattle.std.specs.Prelude.{[], length, ◌+◌, ◌^◌, ◌≤◌};
ghost use Rattle.text.specs.Lent.{Stored};
ghost use Rattle.lines.specs.Keyed.{keyed};

use text::Decimal;

// A line that is a key and a number, from a place on, as far as there is room; answers the place after it.
pub fn put_line<T: Decimal>(out: &mut [u8], at: usize, key: &[u8], n: T) -> usize
    requires at_bound { at ≤ 2 ^ 60 }
    requires key_len_bound { length key.now ≤ 2 ^ 60 }
    ensures stored { Stored out.old at (keyed key.now (T.value n) []) out.new result }
    ensures upper_bound { result ≤ at + (length key.now + 21) }
{
    let number = text::put_bytes(out, at, key);
    text::put_ended(out, number, n, b'\n')
}
