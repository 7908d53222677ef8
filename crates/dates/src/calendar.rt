// The Gregorian calendar.
ghost use Rattle.std.specs.Prelude.{◌≡◌, ◌≤◌, ◌<◌};
ghost use Rattle.dates.specs.Calendar.{leap, february, days_of_month, days_before_year, days_before_month, days_before, possible_day, possible_time, in_milliseconds, milliseconds_of};
ghost use Rattle.dates.specs.Bounds.{YearBounds, DayBounds, TimeBounds};

use crate::fields::{Day, Time};

fn leap(year: u64) -> bool
    ensures { result ≡ leap year }
{
    year % 4 == 0 && (year % 100 != 0 || year % 400 == 0)
}

fn february(year: u64) -> u64
    ensures { result ≡ february year }
{
    if leap(year) { 29 } else { 28 }
}

fn days_of_month(year: u64, month: u64) -> u64
    requires { (1 ≤ month) × (month ≤ 12) }
    ensures { result ≡ days_of_month year month }
{
    let months = [31, february(year), 31, 30, 31, 30, 31, 31, 30, 31, 30, 31];
    let i = (month - 1) as usize;
    months[i]
}

// The days of the years from 1970 to before a year, by the formula that counts from the year 1.
fn days_before_year(year: u64) -> u64
    requires { (1970 ≤ year) × (year < 2100) }
    ensures { (result ≡ days_before_year year) × (result < 50000) }
{
    let y = year - 1;
    365 * y + y / 4 - y / 100 + y / 400 - 719162
}

fn days_before_month(year: u64, month: u64) -> u64
    requires { (1 ≤ month) × (month ≤ 12) }
    ensures { (result ≡ days_before_month year month) × (result ≤ 341) }
{
    let mut days: u64 = 0;
    for m in 1..month {
        days += days_of_month(year, m);
    }
    days
}

fn possible_day(d: Day) -> bool
    ensures { result ≡ possible_day d }
{
    1 <= d.month && (d.month <= 12 && (1 <= d.day && d.day <= days_of_month(d.year, d.month)))
}

fn possible_time(t: Time) -> bool
    ensures { result ≡ possible_time t }
{
    t.hour < 24 && (t.minute < 60 && t.second < 60)
}

fn days_before(d: Day) -> u64
    requires { DayBounds d }
    ensures { (result ≡ days_before d) × (result < 60000) }
{
    days_before_year(d.year) + days_before_month(d.year, d.month) + (d.day - 1)
}

fn in_milliseconds(days: u64, t: Time) -> u64
    requires { (days < 60000) × TimeBounds t }
    ensures { result ≡ in_milliseconds days t }
{
    (((days * 24 + t.hour) * 60 + t.minute) * 60 + t.second) * 1000 + t.millisecond
}

// The milliseconds from the start of 1970 to a moment, and 0 for a moment that the calendar does not have.
pub(crate) fn milliseconds(d: Day, t: Time) -> u64
    requires { YearBounds d × (t.millisecond < 1000) }
    ensures { result ≡ milliseconds_of d t }
{
    if !possible_day(d) || !possible_time(t) {
        return 0;
    }
    in_milliseconds(days_before(d), t)
}
