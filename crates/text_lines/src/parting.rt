//! A text parted by a byte.
ghost use Rattle.std.specs.List.{position_or_len, before_first, after_first};
ghost use Rattle.std.specs.Prelude.{◌≡◌, ◌≤◌, ◌==◌, length};

/// How many bytes stand before the first that is this one.
pub fn len_before(text: &[u8], byte: u8) -> usize
    ensures value { result ≡ position_or_len (λ b. b == byte) text.now }
    ensures within { result ≤ length text.now }
{
    for (i, one) in text.iter().enumerate() {
        if *one == byte {
            return i;
        }
    }
    text.len()
}

/// What stands before the first byte that is this one, and what stands behind it; all of the text, and nothing, where
/// it does not stand there.
pub fn split_before(text: &[u8], byte: u8) -> (&[u8], &[u8])
    ensures before { result.0.now ≡ before_first (λ b. b == byte) text.now }
    ensures behind { result.1.now ≡ after_first (λ b. b == byte) text.now }
{
    let (before, rest) = text.split_at(len_before(text, byte));
    match rest.split_first() {
        Some((_, behind)) => (before, behind),
        None => (before, rest),
    }
}
