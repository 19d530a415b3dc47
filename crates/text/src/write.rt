// Writers into a lent slice: each stores its text from a place on, as far as there is room, and answers the place after it. A place in a text that is being
// written is far below 2^62, so that none wraps.
// Stays: (d) a slice and a place in it one by one: a struct that holds the slice asks of each writer a clause more, that it keeps the reference.
ghost use Rattle.std.specs.Prelude.{◌≡◌, [], ◌∷◌, ◌^◌, ◌≤◌, set};
ghost use Rattle.text.specs.Lent.{Stored};

// The byte b at a place, if there is room.
pub(crate) fn store(out: &mut [u8], at: usize, b: u8)
    ensures { out.new ≡ set out.old at b }
{
    if at < out.len() {
        out[at] = b;
    }
}

// One byte.
#[tactic(auto, unfolding(crate::specs::Lent::put))]
pub fn put_byte(out: &mut [u8], at: usize, b: u8) -> usize
    requires { at ≤ 2 ^ 63 }
    ensures { Stored out.old at (b ∷ []) out.new result }
{
    store(out, at, b);
    at + 1
}

// The bytes of s.
pub fn put_bytes(out: &mut [u8], at: usize, s: &[u8]) -> usize
    requires { at ≤ 2 ^ 62 }
    ensures { Stored out.old at s.now out.new result }
{
    for (i, b) in s.iter().enumerate() {
        store(out, at + i, *b);
    }
    at + s.len()
}
