//! The dates of keys (RFC 3501, section 9: date-text).
//!
//! A date is d-Mon-yyyy or dd-Mon-yyyy, a month in any case, as a word or in quotes.
ghost use Rattle.std.specs.Prelude.{◌≡◌, ◌≤◌, ◌<◌, IfSome};
ghost use Rattle.search_lines.specs.Days as spec;

use civil_dates::{Day, month_of};
use imap_stream::are_few_digits;
use imap_tokens::find_byte;
use jiff_core::civil::Date;
use undo_base::number_in;

/// A day of the month, of one digit or two.
fn read_day_number(bytes: &[u8]) -> Option<u8>
    ensures { result ≡ spec.day_number bytes.now }
{
    if !are_few_digits(bytes) || bytes.len() > 2 {
        return None;
    }
    let value = number_in(bytes);
    if value > 31 {
        return None;
    }
    Some(value as u8)
}

/// A year of four digits.
fn read_year(bytes: &[u8]) -> Option<u16>
    ensures value { result ≡ spec.year_number bytes.now }
    ensures most { IfSome result (λ year. year ≤ 9999) }
{
    if !are_few_digits(bytes) || bytes.len() != 4 {
        return None;
    }
    let value = number_in(bytes);
    if value > 9999 {
        return None;
    }
    Some(value as u16)
}

/// How many days after 1 January 1970 a date lies, if the calendar has it.
fn real_day(day: Day) -> Option<i64>
    requires year { day.year ≤ 9999 }
    ensures { result ≡ spec.real_day day }
{
    if day.month > 12 || day.day > 31 {
        return None;
    }
    let Ok(date) = Date::new(day.year as i16, day.month as i8, day.day as i8) else {
        return None;
    };
    Some(i64::from(date.to_unix_epoch_day()))
}

/// A date's parts.
fn day_by(day: &[u8], month: &[u8], year: &[u8]) -> Option<i64>
    ensures { result ≡ spec.day_by day.now month.now year.now }
{
    let day = read_day_number(day)?;
    let month = month_of(month)?;
    let year = read_year(year)?;
    real_day(Day { year, month, day })
}

/// What stands behind a date's day.
fn behind_day(day: &[u8], rest: &[u8]) -> Option<i64>
    ensures { result ≡ spec.behind_day day.now rest.now }
{
    let place = find_byte(rest, b'-')?;
    day_by(day, &rest[..place], &rest[place + 1..])
}

/// A date without its quotes, in days since 1 January 1970.
pub(crate) fn read_day(bytes: &[u8]) -> Option<i64>
    ensures { result ≡ spec.day_in bytes.now }
{
    let place = find_byte(bytes, b'-')?;
    behind_day(&bytes[..place], &bytes[place + 1..])
}
