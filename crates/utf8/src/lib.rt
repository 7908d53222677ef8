// Whether texts are well-formed UTF-8.

#![tactic(auto)]

ghost use Rattle.std.specs.Prelude.{◌≡◌};
ghost use Rattle.texts.specs.Utf8.{table, begin, next, paid, well_formed};
ghost use Rattle.texts.specs.Texts.{is_well_formed_text, are_well_formed};
ghost use Rattle.utf8.specs.Expected.{owed, owed_behind, ascii};

// What the next byte of a text has to be. Three states, of which none is the lack of a byte, so no Option is plainer.
#[derive(Clone, Copy)]
enum Expected {
    // the first of a sequence
    First,
    // from one to another, with so many of its sequence behind it
    Byte(u8, u8, u8),
    // none is right any more
    Nothing,
}

// After the first byte of a sequence.
fn after_first(b: u8) -> Expected
    ensures { owed result ≡ begin table b }
{
    match b {
        0x00..=0x7F => Expected::First,
        0xC2..=0xDF => Expected::Byte(0x80, 0xBF, 0),
        0xE0 => Expected::Byte(0xA0, 0xBF, 1),
        0xE1..=0xEC => Expected::Byte(0x80, 0xBF, 1),
        0xED => Expected::Byte(0x80, 0x9F, 1),
        0xEE..=0xEF => Expected::Byte(0x80, 0xBF, 1),
        0xF0 => Expected::Byte(0x90, 0xBF, 2),
        0xF1..=0xF3 => Expected::Byte(0x80, 0xBF, 2),
        0xF4 => Expected::Byte(0x80, 0x8F, 2),
        _ => Expected::Nothing,
    }
}

// After a byte that was in its range, with so many behind it.
fn after_byte(behind: u8) -> Expected
    ensures { owed result ≡ owed_behind behind }
{
    if behind == 0 {
        Expected::First
    } else {
        Expected::Byte(0x80, 0xBF, behind - 1)
    }
}

// After any byte.
fn after(expected: Expected, b: u8) -> Expected
    ensures { owed result ≡ next (owed expected) b }
{
    match expected {
        Expected::First => after_first(b),
        Expected::Byte(low, high, behind) if low <= b && b <= high => after_byte(behind),
        _ => Expected::Nothing,
    }
}

// Whether a text may end here: between sequences.
fn may_end(expected: Expected) -> bool
    ensures { result ≡ paid (owed expected) }
{
    matches!(expected, Expected::First)
}

// Every byte a sequence by itself: one pass with no branch in it.
fn is_ascii(text: &[u8]) -> bool
    ensures { result ≡ ascii text.now }
{
    let mut only = true;
    for b in text {
        only &= *b < 0x80;
    }
    only
}

// Well-formed UTF-8, all of it, byte by byte. Called, so that the loops of its callers stay short.
#[inline(never)]
fn is_utf8_by_bytes(text: &[u8]) -> bool
    ensures { result ≡ well_formed text.now }
{
    let mut expected = Expected::First;
    for b in text {
        expected = after(expected, *b);
    }
    may_end(expected)
}

// The same, in one pass where all is ASCII.
pub fn is_utf8(text: &[u8]) -> bool
    ensures { result ≡ well_formed text.now }
{
    if is_ascii(text) {
        return true;
    }
    is_utf8_by_bytes(text)
}

// One text, cut at its first zero. Called too.
#[inline(never)]
fn is_utf8_text(text: &[u8]) -> bool
    ensures { result ≡ is_well_formed_text text.now }
{
    let end = texts::utf8_len(text);
    is_utf8(&text[..end])
}

// The same, where it does not begin with ASCII.
fn is_utf8_rest(text: &[u8]) -> bool
    ensures { result ≡ is_well_formed_text text.now }
{
    let end = texts::utf8_len(text);
    if end == 0 {
        return true;
    }
    is_utf8_by_bytes(&text[..end])
}

// The same: a short one by one look at each byte for as long as they are ASCII, as most of several texts are.
fn is_short_utf8_text(text: &[u8]) -> bool
    ensures { result ≡ is_well_formed_text text.now }
{
    if text.len() > 16 {
        return is_utf8_text(text);
    }
    for (i, b) in text.iter().enumerate() {
        if *b == 0 || *b >= 0x80 {
            return is_utf8_rest(&text[i..]);
        }
    }
    true
}

// Each of the texts, size bytes long, is well-formed UTF-8 up to its first zero. With size 0 all is one text.
pub fn are_utf8(texts: &[u8], size: usize) -> bool
    ensures { result ≡ are_well_formed size texts.now }
{
    if size == 0 {
        return is_utf8_text(texts);
    }
    for text in texts.chunks(size) {
        if !is_short_utf8_text(text) {
            return false;
        }
    }
    true
}
