// Texts and dates.
ghost use Rattle.std.specs.Prelude.{◌≡◌, length};
ghost use Rattle.texts.specs.Kept.{kept, up_to_zero};
ghost use Rattle.texts.specs.Utf8.{well_formed};
ghost use Rattle.texts.specs.Texts.{are_well_formed};
ghost use Rattle.dates.specs.Date.{date_of};
ghost use Rattle.answers.specs.Answers.{of_date};
ghost use Rattle.gpmf_basics.specs.Lent.{ResolvedAs};

use answers::WholeAnswer;

// A TYPE text written out.
#[unsafe(no_mangle)]
pub extern "C" fn gpmf_resolve_custom_type(text: &[u8], out: &mut [u8; 256]) -> WholeAnswer
    ensures { ResolvedAs text.now out.old out.new result }
{
    gpmf_basics::text_face::gpmf_resolve_custom_type(text, out)
}

// How many bytes of a Latin-1 text are kept.
#[unsafe(no_mangle)]
pub extern "C" fn gpmf_latin1_len(text: &[u8]) -> usize
    ensures { result ≡ length (kept text.now) }
{
    gpmf_basics::text_face::gpmf_latin1_len(text)
}

// How many bytes a UTF-8 text has up to its first zero.
#[unsafe(no_mangle)]
pub extern "C" fn gpmf_utf8_len(text: &[u8]) -> usize
    ensures { result ≡ length (up_to_zero text.now) }
{
    gpmf_basics::text_face::gpmf_utf8_len(text)
}

// Whether bytes are well-formed UTF-8.
#[unsafe(no_mangle)]
pub extern "C" fn gpmf_is_utf8(text: &[u8]) -> bool
    ensures { result ≡ well_formed text.now }
{
    gpmf_basics::text_face::gpmf_is_utf8(text)
}

// Whether several texts are.
#[unsafe(no_mangle)]
pub extern "C" fn gpmf_are_utf8(texts: &[u8], size: usize) -> bool
    ensures { result ≡ are_well_formed size texts.now }
{
    gpmf_basics::text_face::gpmf_are_utf8(texts, size)
}

// A date in milliseconds since 1970.
#[unsafe(no_mangle)]
pub extern "C" fn gpmf_parse_utcdate(text: &[u8]) -> WholeAnswer
    ensures { result ≡ of_date (date_of text.now) }
{
    gpmf_basics::text_face::gpmf_parse_utcdate(text)
}
