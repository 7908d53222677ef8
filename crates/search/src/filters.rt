// Filters: each is false only where DEVC begins at none of some places.
ghost use Rattle.std.specs.Prelude.{ℕ, ◌≡◌, false, ◌+◌, ◌*◌, ◌≤◌, length};
ghost use Rattle.search.specs.Search.{find_from, IsLetter, WordsAgree};

// Two words of two letters of DEVC, of which the one ends where the other begins: where that is, the bits in which they agree, and what those are.
#[derive(Clone, Copy)]
pub(crate) struct Words {
    at: usize,
    bits: u16,
    are: u16,
}

// `DE` and `EV`.
pub(crate) const FIRST: Words = Words {
    at: 1,
    bits: 0xECFE,
    are: 0x4444,
};

// `EV` and `VC`.
pub(crate) const LAST: Words = Words {
    at: 2,
    bits: 0xEAEC,
    are: 0x4244,
};

// False only where DEVC begins neither at a place nor at the next: the two bytes that would be either word do not agree with them.
fn may_begin_at_two(s: &[u8], k: usize, words: Words) -> bool
    requires k_in_bounds { k + 5 ≤ length s.now }
    requires words_agree { WordsAgree words.at words.bits words.are }
    ensures { result ≡ false → find_from s.now k ≡ find_from s.now (k + 2) }
{
    (u16::from(s[k + words.at]) + 256 * u16::from(s[k + words.at + 1])) & words.bits == words.are
}

// By words, two places in one comparison: the quickest.
pub(crate) fn by_words(s: &[u8], from: usize, words: Words, count: usize) -> bool
    requires count_in_bounds { from + 2 * count + 3 ≤ length s.now }
    requires words_agree { WordsAgree words.at words.bits words.are }
    ensures { result ≡ false → find_from s.now from ≡ find_from s.now (from + 2 * count) }
{
    let mut hit = false;
    for pairs in 0..count {
        hit |= may_begin_at_two(s, from + 2 * pairs, words);
    }
    hit
}

// A letter of DEVC: where it stands in it, and which it is.
#[derive(Clone, Copy)]
struct Letter {
    at: usize,
    is: u8,
}

const D: Letter = Letter { at: 0, is: b'D' };

const E: Letter = Letter { at: 1, is: b'E' };

const V: Letter = Letter { at: 2, is: b'V' };

const C: Letter = Letter { at: 3, is: b'C' };

// By two letters, at 128 places.
fn by_letters(s: &[u8], from: usize, one: Letter, other: Letter) -> bool
    requires from_in_bounds { from + 131 ≤ length s.now }
    requires letter { IsLetter one.at one.is × IsLetter other.at other.is }
    ensures { result ≡ false → find_from s.now from ≡ find_from s.now (from + 128) }
{
    let mut hit = false;
    for k in from..from + 128 {
        hit |= (s[k + one.at] == one.is) & (s[k + other.at] == other.is);
    }
    hit
}

// The first block of 128 places that a filter does not pass, or where fewer places are left.
fn blocks_pass<F: Fn(usize) -> bool>(s: &[u8], from: usize, end: usize, may_begin: F) -> usize
    requires from_le_end { (from ≤ end) × (end + 3 ≤ length s.now) }
    requires callable { (k : ℕ) → k + 131 ≤ length s.now → F.pre may_begin k }
    requires filter { (k : ℕ) → k + 131 ≤ length s.now → F.post may_begin k false → find_from s.now k ≡ find_from s.now (k + 128) }
    ensures { (from ≤ result) × (result ≤ end) × (find_from s.now from ≡ find_from s.now result) }
{
    // `k` is the answer, so a range would be no plainer
    let mut k = from;
    while 128 <= end - k {
        if may_begin(k) {
            return k;
        }
        k += 128;
    }
    k
}

// What a filter compares, in the order in which they are used.
#[derive(Clone, Copy)]
pub(crate) enum Compares {
    FirstWords,
    LastWords,
    EAndV,
    DAndC,
    DAndE,
    VAndC,
    Nothing,
}

// By the filter in use; with none no block is passed.
pub(crate) fn pass(s: &[u8], from: usize, end: usize, compares: Compares) -> usize
    requires { (from ≤ end) × (end + 3 ≤ length s.now) }
    ensures { (from ≤ result) × (result ≤ end) × (find_from s.now from ≡ find_from s.now result) }
{
    match compares {
        Compares::FirstWords => blocks_pass(s, from, end, |k| by_words(s, k, FIRST, 64)),
        Compares::LastWords => blocks_pass(s, from, end, |k| by_words(s, k, LAST, 64)),
        Compares::EAndV => blocks_pass(s, from, end, |k| by_letters(s, k, E, V)),
        Compares::DAndC => blocks_pass(s, from, end, |k| by_letters(s, k, D, C)),
        Compares::DAndE => blocks_pass(s, from, end, |k| by_letters(s, k, D, E)),
        Compares::VAndC => blocks_pass(s, from, end, |k| by_letters(s, k, V, C)),
        Compares::Nothing => from,
    }
}

// ---- the filter in use

// The filter in use, and how far it is trusted. Each choice is right, so nothing is promised of it.
#[derive(Clone, Copy)]
pub(crate) struct Filter {
    pub(crate) compares: Compares,
    pub(crate) trust: usize,
}

impl Compares {
    // The one that is used after it; after the last there is none.
    fn next(self) -> Compares {
        match self {
            Compares::FirstWords => Compares::LastWords,
            Compares::LastWords => Compares::EAndV,
            Compares::EAndV => Compares::DAndC,
            Compares::DAndC => Compares::DAndE,
            Compares::DAndE => Compares::VAndC,
            Compares::VAndC | Compares::Nothing => Compares::Nothing,
        }
    }
}

impl Filter {
    // It took a block for one with DEVC, behind so many places that it passed: where that happens to more than one block in eight the next one is used.
    pub(crate) fn failed(self, passed: usize) -> Filter {
        let trust = self.trust.min(64) + (passed / 128).min(64);
        match trust.checked_sub(8) {
            Some(trust) => Filter { trust, ..self },
            None => Filter {
                compares: self.compares.next(),
                trust: 0,
            },
        }
    }
}
