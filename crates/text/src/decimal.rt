// Numbers written in decimal, into a lent slice.
// Stays: (d) a slice and a place in it one by one, as in `src/write.rt`.
ghost use Rattle.std.specs.Prelude.{◌≡◌, [], ◌∷◌, ◌++◌, ◌+◌, ◌^◌, ◌≤◌, length, ℤ, pos};
ghost use Rattle.text.specs.Numbers.{digits, decimal};
ghost use Rattle.text.specs.Lent.{Stored};

use crate::write::{put_byte, store};

// A number that has a text.
pub trait Decimal: Copy {
    ghost value: { Self → ℤ };

    // Its text.
    fn put(self, out: &mut [u8], at: usize) -> usize
        requires { at ≤ 2 ^ 63 }
        ensures stored { Stored out.old at (decimal (value self)) out.new result }
        ensures upper_bound { result ≤ at + 20 };
}

impl Decimal for u64 {
    ghost value = { pos };

    fn put(self, out: &mut [u8], at: usize) -> usize {
        put_digits(out, at, self)
    }
}

impl Decimal for i64 {
    ghost value = { λ z. z };

    fn put(self, out: &mut [u8], at: usize) -> usize {
        let n = self.unsigned_abs();
        if self < 0 {
            let from = put_byte(out, at, b'-');
            put_digits(out, from, n)
        } else {
            put_digits(out, at, n)
        }
    }
}

// How many digits n has.
fn count_digits(n: u64) -> usize
    ensures { result ≡ length (digits n) }
{
    n.checked_ilog10().unwrap_or(0) as usize + 1
}

// The digits of n, from the last one on.
fn put_digits(out: &mut [u8], at: usize, n: u64) -> usize
    requires { at ≤ 2 ^ 63 + 1 }
    ensures { Stored out.old at (digits n) out.new result }
{
    // A number of one digit, as most numbers of a refusal's line are, is not worth a count of its digits.
    if n < 10 {
        store(out, at, b'0' + n as u8);
        return at + 1;
    }
    let behind = at + count_digits(n);
    let mut left = n;
    for place in (at..behind).rev() {
        store(out, place, b'0' + (left % 10) as u8);
        left /= 10;
    }
    behind
}

// The number n, and the byte after it.
pub fn put_ended<T: Decimal>(out: &mut [u8], at: usize, n: T, end: u8) -> usize
    requires { at ≤ 2 ^ 61 }
    ensures stored { Stored out.old at (decimal (T.value n) ++ (end ∷ [])) out.new result }
    ensures upper_bound { result ≤ at + 21 }
{
    let behind = n.put(out, at);
    put_byte(out, behind, end)
}
