//! Dates as they are written (RFC 3501, section 9: date-time).
//!
//! A real date from the year 0 on is taken; the moment is kept from 0 to `LAST_MOMENT`.
ghost use Rattle.std.specs.Prelude.{◌≡◌, ◌≤◌, ◌<◌, length, negsuc, pos, ◌≤ℤ◌, IfSome};
ghost use Rattle.imap_tokens.specs.Dates.{day_number, year_number, sign_in, ahead_of, is_punctuated, day_in, clock_in, zone_in, date_in};
ghost use Rattle.imap_tokens.specs.Dates as spec;

use civil_dates::{Day, moment_of, month_of};

/// How many bytes a date has.
const DATE_LENGTH: usize = 26;

/// The number that two digits spell.
fn two_digits(tens: u8, ones: u8) -> Option<u8>
    ensures value { result ≡ spec.two_digits tens ones }
    ensures most { IfSome result (λ n. n < 100) }
{
    if tens.is_ascii_digit() && ones.is_ascii_digit() {
        Some((tens - b'0') * 10 + (ones - b'0'))
    } else {
        None
    }
}

/// The number that two digits spell, if it is below a limit.
fn two_below(limit: u8, tens: u8, ones: u8) -> Option<u8>
    ensures value { result ≡ spec.two_below limit tens ones }
    ensures most { IfSome result (λ n. n < limit) }
{
    let number = two_digits(tens, ones)?;
    if number < limit { Some(number) } else { None }
}

/// A day: two digits, or a space and a digit.
fn read_day_number(tens: u8, ones: u8) -> Option<u8>
    ensures { result ≡ day_number tens ones }
{
    if tens == b' ' {
        two_digits(b'0', ones)
    } else {
        two_digits(tens, ones)
    }
}

/// A year of four digits.
fn read_year(a: u8, b: u8, c: u8, d: u8) -> Option<u16>
    ensures value { result ≡ year_number a b c d }
    ensures most { IfSome result (λ n. n ≤ 9999) }
{
    let high = two_digits(a, b)?;
    let low = two_digits(c, d)?;
    Some(u16::from(high) * 100 + u16::from(low))
}

/// The day of a date.
fn read_day(bytes: &[u8]) -> Option<Day>
    requires { length bytes.now ≡ DATE_LENGTH }
    ensures value { result ≡ day_in bytes.now }
    ensures year { IfSome result (λ d. d.year ≤ 9999) }
{
    let day = read_day_number(bytes[0], bytes[1])?;
    let month = month_of(&bytes[3..6])?;
    let year = read_year(bytes[7], bytes[8], bytes[9], bytes[10])?;
    Some(Day { year, month, day })
}

/// The second of the day at an hour, a minute and a second.
fn second_of(hour: u8, minute: u8, second: u8) -> u32
    requires hours { hour < 24 }
    requires minutes { minute < 60 }
    requires seconds { second < 60 }
    ensures value { result ≡ spec.second_of hour minute second }
    ensures most { result < 86400 }
{
    (u32::from(hour) * 60 + u32::from(minute)) * 60 + u32::from(second)
}

/// The second of the day of a date.
fn read_clock(bytes: &[u8]) -> Option<u32>
    requires { length bytes.now ≡ DATE_LENGTH }
    ensures value { result ≡ clock_in bytes.now }
    ensures most { IfSome result (λ n. n < 86400) }
{
    let hour = two_below(24, bytes[12], bytes[13])?;
    let minute = two_below(60, bytes[15], bytes[16])?;
    let second = two_below(60, bytes[18], bytes[19])?;
    Some(second_of(hour, minute, second))
}

/// Whether the sign of a zone says that it is behind UTC.
fn read_sign(byte: u8) -> Option<bool>
    ensures { result ≡ sign_in byte }
{
    if byte == b'+' {
        Some(false)
    } else if byte == b'-' {
        Some(true)
    } else {
        None
    }
}

/// How many minutes a zone is ahead of UTC.
fn minutes_ahead(behind: bool, hour: u8, minute: u8) -> i16
    requires hours { hour < 24 }
    requires minutes { minute < 60 }
    ensures value { result ≡ ahead_of behind hour minute }
    ensures west { negsuc 1438 ≤ℤ result }
    ensures east { result ≤ℤ pos 1439 }
{
    let minutes = i16::from(hour) * 60 + i16::from(minute);
    if behind { 0 - minutes } else { minutes }
}

/// How many minutes the zone of a date is ahead of UTC.
fn read_zone(bytes: &[u8]) -> Option<i16>
    requires { length bytes.now ≡ DATE_LENGTH }
    ensures value { result ≡ zone_in bytes.now }
    ensures west { IfSome result (λ z. negsuc 1438 ≤ℤ z) }
    ensures east { IfSome result (λ z. z ≤ℤ pos 1439) }
{
    let behind = read_sign(bytes[21])?;
    let hour = two_below(24, bytes[22], bytes[23])?;
    let minute = two_below(60, bytes[24], bytes[25])?;
    Some(minutes_ahead(behind, hour, minute))
}

/// Whether the parts of a date are apart as they are to be.
fn has_punctuation(bytes: &[u8]) -> bool
    requires { length bytes.now ≡ DATE_LENGTH }
    ensures { result ≡ is_punctuated bytes.now }
{
    bytes[2] == b'-'
        && bytes[6] == b'-'
        && bytes[11] == b' '
        && bytes[14] == b':'
        && bytes[17] == b':'
        && bytes[20] == b' '
}

/// The moment of a date, if the calendar has it.
fn real_moment(day: Day, second: u32, zone: i16) -> Option<u64>
    requires year { day.year ≤ 9999 }
    requires second { second < 86400 }
    requires west { negsuc 1438 ≤ℤ zone }
    requires east { zone ≤ℤ pos 1439 }
    ensures { result ≡ spec.real_moment day second zone }
{
    moment_of(day, second, zone)
}

/// The moment of a date of the right length.
fn read_parts(bytes: &[u8]) -> Option<u64>
    requires { length bytes.now ≡ DATE_LENGTH }
    ensures { result ≡ spec.parts_in bytes.now }
{
    let day = read_day(bytes)?;
    let second = read_clock(bytes)?;
    let zone = read_zone(bytes)?;
    real_moment(day, second, zone)
}

/// The moment of a date without its quotes, in seconds since 1970 in UTC.
pub fn read_date(bytes: &[u8]) -> Option<u64>
    ensures { result ≡ date_in bytes.now }
{
    if bytes.len() == DATE_LENGTH && has_punctuation(bytes) {
        read_parts(bytes)
    } else {
        None
    }
}
