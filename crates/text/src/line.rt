// Where a line ends, and whether it begins with a key.
ghost use Rattle.std.specs.Prelude.{◌≡◌};
ghost use Rattle.text.specs.Lines.{len_to, has_key};

// How many bytes stand before the first b; all of them, where there is none.
pub fn len_to(s: &[u8], b: u8) -> usize
    ensures { result ≡ len_to b s.now }
{
    s.iter().position(|x| *x == b).unwrap_or(s.len())
}

// Whether s begins with the key.
pub fn has_key(s: &[u8], key: &[u8]) -> bool
    ensures { result ≡ has_key key.now s.now }
{
    s.starts_with(key)
}
