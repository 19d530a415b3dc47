// A text written whole into a lent slice.
ghost use Rattle.std.specs.Prelude.{◌≡◌, ◌≤◌, ℕ, List, length};
ghost use Rattle.text.specs.Lent.{Stored, written};
ghost use Rattle.lines.specs.Written.{written_as};

use crate::Refusal;

// A value that has a text.
pub trait Text {
    ghost text: { Self → List ℕ };

    // What the value has to be like, and how long its text is at most.
    ghost can_put: { Self → Type 0 };

    ghost most: { Self → ℕ };

    // How long its text is at most.
    fn most(&self) -> usize
        requires { can_put self.now }
        ensures { result ≡ most self.now };

    // Its text, from the beginning of the slice on, as far as there is room; answers its length.
    fn put(&self, out: &mut [u8]) -> usize
        requires { can_put self.now }
        ensures stored { Stored out.old 0 (text self.now) out.new result }
        ensures bound { length (text self.now) ≤ most self.now };
}

// The whole text and its length, or 12 and not one byte changed. The length is measured first, on a part without places, unless every such text has room.
pub fn write<T: Text>(t: &T, out: &mut [u8]) -> Result<usize, Refusal>
    requires { T.can_put t.now }
    ensures value { result ≡ written_as (T.text t.now) out.old }
    ensures out_after { out.new ≡ written (T.text t.now) out.old }
    ensures bound { length (T.text t.now) ≤ T.most t.now }
{
    if out.len() < t.most() {
        let length = t.put(&mut out[..0]);
        if out.len() < length {
            return Err(Refusal::NoRoom);
        }
    }
    Ok(t.put(out))
}
