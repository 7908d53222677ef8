// TYPE texts written out: `f[3]` stands for `fff`.

#![tactic(auto)]

mod count;
mod step;

ghost use Rattle.std.specs.Prelude.{◌≡◌, ◌≤◌, true, length, replicate};
ghost use Rattle.custom_type.specs.Expansion.{expanded};
ghost use Rattle.custom_type.specs.Resolved.{told, laid_if, Resolved};

use foundation::refusal::Fault;
use step::Held;

// How many characters a text stands for. A run is counted at once, however many copies it has: the first that does not fit ends it.
fn measure(text: &[u8]) -> Result<usize, Fault>
    ensures { result ≡ told (expanded text.now) }
{
    let mut held = Held::new();
    let mut written: usize = 0;
    for c in text {
        let turn = held.step(*c);
        if 256 - written < turn.times {
            return Err(Fault::LongType);
        }
        written += turn.times;
        held = turn.held;
    }
    Ok(written)
}

// A run of one character. Most have one place, which is stored at once, without a call of the C library.
fn fill(part: &mut [u8], character: u8)
    ensures { part.new ≡ replicate (length part.old) character }
{
    if let [only] = part {
        *only = character;
    } else {
        part.fill(character);
    }
}

// Writes the characters of a text that was found to fit.
fn write(text: &[u8], out: &mut [u8])
    requires { length (expanded text.now) ≤ length out.old }
    ensures { out.new ≡ laid_if true (expanded text.now) out.old }
{
    let mut held = Held::new();
    let mut at: usize = 0;
    for c in text {
        let turn = held.step(*c);
        let end = at + turn.times;
        fill(&mut out[at..end], turn.character);
        at = end;
        held = turn.held;
    }
}

// Writes a TYPE text out into the lent array, whose rest stays, and answers how many characters were written; a text of
// more than 256 characters is refused, and leaves the array as it was.
pub fn resolve_custom_type(text: &[u8], out: &mut [u8; 256]) -> Result<usize, Fault>
    ensures { Resolved text.now out.old out.new result }
{
    let written = measure(text)?;
    write(text, out);
    Ok(written)
}
