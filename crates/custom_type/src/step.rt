// What one character of a text does.
ghost use Rattle.std.specs.Prelude.{◌≡◌};
ghost use Rattle.custom_type.specs.Expansion.{copied, start, opened, closed, with_letter, step};
ghost use Rattle.custom_type.specs.Held.{held_of, Turned};

use crate::count::Count;

// What is held while a text is gone through. `written` with `last` as an Option: tried, and four times as slow.
// `collecting` with `count` would be none: `Turned` is said of every expansion, also of one that collected and has no `[`
// open any more.
#[derive(Clone, Copy)]
pub(crate) struct Held {
    // whether a character was written yet, and the last one, as it is copied
    pub(crate) written: bool,
    pub(crate) last: u8,
    // whether a `[` is open, and what was collected since
    pub(crate) collecting: bool,
    pub(crate) count: Count,
}

// What a character leads to, and the run of one character that it writes.
#[derive(Clone, Copy)]
pub(crate) struct Turn {
    pub(crate) held: Held,
    pub(crate) character: u8,
    pub(crate) times: usize,
}

// As the published code copies a character: by its last byte in UTF-8.
fn copied_as(c: u8) -> u8
    ensures { result ≡ copied c }
{
    if c <= 127 { c } else { 128 + c % 64 }
}

impl Held {
    pub(crate) fn new() -> Held
        ensures { result ≡ held_of start }
    {
        Held {
            written: false,
            last: 0,
            collecting: false,
            count: Count::new(),
        }
    }

    // `[`
    fn opened(mut self) -> Turn
        ensures { Turned self opened result }
    {
        self.collecting = true;
        Turn {
            held: self,
            character: 0,
            times: 0,
        }
    }

    // `]`
    fn closed(mut self) -> Turn
        ensures { Turned self closed result }
    {
        let character = self.last;
        let count = self.count;
        let times = count.copies(self.written);
        let none = Count::new();
        self.collecting = false;
        self.count = none;
        Turn {
            held: self,
            character,
            times,
        }
    }

    // Any other character.
    fn with_letter(mut self, c: u8) -> Turn
        ensures { Turned self (λ x. with_letter x c) result }
    {
        if self.collecting {
            let count = self.count;
            let more = count.with(c);
            self.count = more;
            return Turn {
                held: self,
                character: 0,
                times: 0,
            };
        }
        self.written = true;
        self.last = copied_as(c);
        Turn {
            held: self,
            character: c,
            times: 1,
        }
    }

    pub(crate) fn step(self, c: u8) -> Turn
        ensures { Turned self (λ x. step x c) result }
    {
        if c == b'[' {
            self.opened()
        } else if c == b']' {
            self.closed()
        } else {
            self.with_letter(c)
        }
    }
}
