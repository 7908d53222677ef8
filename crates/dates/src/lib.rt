// Dates (type U): the text yymmddhhmmss.sss, in milliseconds since 1970.

#![tactic(auto)]

mod calendar;
mod fields;

ghost use Rattle.std.specs.Prelude.{◌≡◌};
ghost use Rattle.dates.specs.Date.{date_of};

use foundation::refusal::Fault;

// The milliseconds of the date in the first 16 bytes of a text: 0 for a date or time that the calendar does not have.
// Fewer than 16 bytes are too few, and a field that is no number or a thirteenth byte that is not ASCII is unreadable.
pub fn parse_utcdate(text: &[u8]) -> Result<u64, Fault>
    ensures { result ≡ date_of text.now }
{
    if text.len() < 16 {
        return Err(Fault::TooFew);
    }
    let day = fields::parse_day(text).ok_or(Fault::Unreadable)?;
    let time = fields::parse_time(text).ok_or(Fault::Unreadable)?;
    Ok(calendar::milliseconds(day, time))
}
