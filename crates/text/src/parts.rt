// Parts of a text, shorter where the text ends first.
ghost use Rattle.std.specs.Prelude.{◌≡◌, take, drop};

// The first `n` bytes.
pub(crate) fn front(text: &[u8], n: usize) -> &[u8]
    ensures { result.now ≡ take n text.now }
{
    &text[..n.min(text.len())]
}

// What stands behind the first `n` bytes.
pub(crate) fn behind(text: &[u8], n: usize) -> &[u8]
    ensures { result.now ≡ drop n text.now }
{
    &text[n.min(text.len())..]
}
