// The number between `[` and `]`, a character at a time.
ghost use Rattle.std.specs.Prelude.{◌≡◌, cond, [], ◌-◌};
ghost use Rattle.custom_type.specs.Held.{count_of, number_of, with_digit, next_count};

// What was collected, as a number so far.
#[derive(Clone, Copy)]
pub(crate) enum Count {
    // nothing yet: a `+` may come
    Empty,
    // digits of a number of 64 bits
    Number(usize),
    // no number, whatever comes
    Unreadable,
}

// With one character more behind its digits, which has to be a digit and to leave a number of 64 bits.
fn with_digit(number: usize, c: u8) -> Count
    ensures { result ≡ with_digit number c }
{
    if b'0' <= c {
        if c <= b'9' {
            let digit = (c - b'0') as usize;
            if number <= (18446744073709551615 - digit) / 10 {
                return Count::Number(number * 10 + digit);
            }
        }
    }
    Count::Unreadable
}

impl Count {
    pub(crate) fn new() -> Count
        ensures { result ≡ count_of [] }
    {
        Count::Empty
    }

    // With one character more.
    pub(crate) fn with(self, c: u8) -> Count
        ensures { result ≡ next_count self c }
    {
        match self {
            Count::Empty if c == b'+' => Count::Number(0),
            Count::Empty => with_digit(0, c),
            Count::Number(number) => with_digit(number, c),
            Count::Unreadable => Count::Unreadable,
        }
    }

    // How often the last character is copied, if one was written.
    pub(crate) fn copies(self, written: bool) -> usize
        ensures { result ≡ cond written (number_of self - 1) 0 }
    {
        match self {
            Count::Number(number) if written => number.saturating_sub(1),
            _ => 0,
        }
    }
}
