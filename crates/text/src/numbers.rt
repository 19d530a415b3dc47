// Decimal numbers, read inside a range.
ghost use Rattle.std.specs.Prelude.{◌≡◌, pos, neg_ℤ};
ghost use Rattle.text.specs.Numbers.{number_within, number_in, number_after};
ghost use Rattle.text.specs.DigitsRead.{positive_read};

use crate::{NumberFault, TOO_LARGE};

// The number of the digits of s, which have no leading zero; `TOO_LARGE` for all numbers from there on.
fn read_positive(s: &[u8]) -> Option<u64>
    ensures { result ≡ positive_read s.now }
{
    if let [] | [b'0', ..] = s {
        return None;
    }
    let mut n = 0u64;
    for b in s {
        if !b.is_ascii_digit() {
            return None;
        }
        n = if n < TOO_LARGE / 10 {
            n * 10 + u64::from(*b - b'0')
        } else {
            TOO_LARGE
        };
    }
    Some(n)
}

// A number against its range, both ends included.
fn in_range(z: i64, lo: i64, hi: i64) -> Result<i64, NumberFault>
    ensures { result ≡ number_within lo hi z }
{
    if (lo..=hi).contains(&z) {
        Ok(z)
    } else {
        Err(NumberFault::Range)
    }
}

// The number n against a range.
fn positive_in(n: u64, lo: i64, hi: i64) -> Result<i64, NumberFault>
    ensures { result ≡ number_within lo hi (pos n) }
{
    let z = i64::try_from(n).map_err(|_| NumberFault::Range)?;
    in_range(z, lo, hi)
}

// The number -n against a range.
fn negative_in(n: u64, lo: i64, hi: i64) -> Result<i64, NumberFault>
    ensures { result ≡ number_within lo hi (neg_ℤ (pos n)) }
{
    let z = 0i64.checked_sub_unsigned(n).ok_or(NumberFault::Range)?;
    in_range(z, lo, hi)
}

// The number that s is the text of: its value, or that it lacks the form, or that it is out of range.
pub fn read_number(s: &[u8], lo: i64, hi: i64) -> Result<i64, NumberFault>
    ensures { result ≡ number_in lo hi s.now }
{
    if s == b"0".as_slice() {
        return in_range(0, lo, hi);
    }
    if let Some(digits) = s.strip_prefix(b"-") {
        let n = read_positive(digits).ok_or(NumberFault::Form)?;
        return negative_in(n, lo, hi);
    }
    let n = read_positive(s).ok_or(NumberFault::Form)?;
    positive_in(n, lo, hi)
}

// The number after a key, where s is a line without its LF.
pub fn number_after(s: &[u8], key: &[u8], lo: i64, hi: i64) -> Result<i64, NumberFault>
    ensures { result ≡ number_after key.now lo hi s.now }
{
    match s.strip_prefix(key) {
        Some(number) => read_number(number, lo, hi),
        None => Err(NumberFault::Form),
    }
}
