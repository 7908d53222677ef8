// Texts: how many bytes of a Latin-1 and of a UTF-8 text are kept.

#![tactic(auto)]

ghost use Rattle.std.specs.Prelude.{◌≡◌, length};
ghost use Rattle.texts.specs.Kept.{kept, up_to_zero};

// The bytes of a Latin-1 text: all but its trailing zeros.
pub fn latin1_len(text: &[u8]) -> usize
    ensures { result ≡ length (kept text.now) }
{
    match text.iter().rposition(|b| *b != 0) {
        Some(last) => last + 1,
        None => 0,
    }
}

// The bytes of a UTF-8 text: up to its first zero, or all.
pub fn utf8_len(text: &[u8]) -> usize
    ensures { result ≡ length (up_to_zero text.now) }
{
    text.iter().position(|b| *b == 0).unwrap_or(text.len())
}
