// A key as a line shows it, laid into a lent buffer whole or not at all.

#![tactic(auto)]

ghost use Rattle.text.specs.Lay.{Lays};
ghost use Rattle.shown_key.specs.Key.{shown_key};

// A key by its four bytes, or in hex where one of them cannot be seen.
pub fn put_key(out: &mut [u8], at: usize, key: u32) -> usize
    ensures { Lays (shown_key key) out.old at result out.new }
{
    let bytes = key.to_be_bytes();
    if bytes.iter().all(|b| b.is_ascii_graphic()) {
        return text::put_bytes(out, at, &bytes);
    }
    let mut hex = [b'x'; 9];
    numerals::put_hex(&mut hex, 1, u64::from(key), 8);
    text::put_bytes(out, at, &hex)
}
