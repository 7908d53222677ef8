// The numbers that stand in a date's text.
ghost use Rattle.std.specs.Prelude.{◌≡◌, ◌+◌, ◌-◌, ◌^◌, ◌<◌, ◌≤◌, length};
ghost use Rattle.dates.specs.Fields.{digits, unsigned, year, field, day_of, time_of};
ghost use Rattle.dates.specs.Bounds.{Field, Below, AYear, DayInRange, TimeInRange};

#[derive(Clone, Copy)]
pub struct Day {
    pub year: u64,
    pub month: u64,
    pub day: u64,
}

#[derive(Clone, Copy)]
pub struct Time {
    pub hour: u64,
    pub minute: u64,
    pub second: u64,
    pub millisecond: u64,
}

// The digits of a field, and nothing else.
fn digits(text: &[u8], from: usize, to: usize) -> Option<u64>
    requires { Field text.now from to }
    ensures { (result ≡ digits (field text.now from to)) × Below (10 ^ (to - from)) result }
{
    let mut number: u64 = 0;
    for i in from..to {
        let b = text[i];
        if !b.is_ascii_digit() {
            return None;
        }
        number = number * 10 + u64::from(b - b'0');
    }
    Some(number)
}

// A leading `+` is read in each field.
fn unsigned(text: &[u8], from: usize, to: usize) -> Option<u64>
    requires { Field text.now from to × (from + 1 < to) }
    ensures { (result ≡ unsigned (field text.now from to)) × Below (10 ^ (to - from)) result }
{
    if text[from] == b'+' {
        return digits(text, from + 1, to);
    }
    digits(text, from, to)
}

// A leading `-` is read in the year only.
fn year(text: &[u8]) -> Option<u64>
    requires { 2 ≤ length text.now }
    ensures { (result ≡ year (field text.now 0 2)) × AYear result }
{
    if text[0] == b'-' {
        let n = digits(text, 1, 2)?;
        return Some(2000 - n);
    }
    let n = unsigned(text, 0, 2)?;
    Some(2000 + n)
}

// The first six bytes: yymmdd.
pub(crate) fn parse_day(text: &[u8]) -> Option<Day>
    requires { 16 ≤ length text.now }
    ensures { (result ≡ day_of text.now) × DayInRange result }
{
    let year = year(text)?;
    let month = unsigned(text, 2, 4)?;
    let day = unsigned(text, 4, 6)?;
    Some(Day { year, month, day })
}

// The ten bytes behind them: hhmmss, a byte that may be any ASCII byte, and the milliseconds.
pub(crate) fn parse_time(text: &[u8]) -> Option<Time>
    requires { 16 ≤ length text.now }
    ensures { (result ≡ time_of text.now) × TimeInRange result }
{
    if 128 <= text[12] {
        return None;
    }
    let hour = unsigned(text, 6, 8)?;
    let minute = unsigned(text, 8, 10)?;
    let second = unsigned(text, 10, 12)?;
    let millisecond = unsigned(text, 13, 16)?;
    Some(Time {
        hour,
        minute,
        second,
        millisecond,
    })
}
