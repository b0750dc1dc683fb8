//! Days and moments.
ghost use Rattle.std.specs.Prelude.{◌≡◌, ◌≤◌, ◌<◌, ◌↔◌, ℕ, pos, negsuc, ◌≤ℤ◌, ◌+ℤ◌, ◌-ℤ◌, ◌*ℤ◌, IsSome, IfSome};
ghost use Rattle.jiff_core.specs.Calendar.{IsCivilDate};
ghost use Rattle.civil_dates.specs.Days as spec;
ghost use Rattle.civil_dates.specs.Days.{IsDay, kept, seconds_of};

use jiff_core::civil::Date;
use undo_base::LAST_MOMENT;

/// A date from the year 0 on: the month from 1 to 12, the day from 1.
#[derive(Clone, Copy, Debug, PartialEq, Eq)]
pub struct Day {
    pub year: u16,
    pub month: u8,
    pub day: u8,
}

/// The date so many days after 1 January 1970, up to the year 9999.
pub fn civil_day(days: u32) -> Day
    requires { days ≤ 2932896 }
    ensures day { result ≡ spec.civil_day days }
    ensures calendar { IsDay days result }
{
    let date = Date::from_unix_epoch_day(days as i64).unwrap();
    Day {
        year: date.year.unsigned_abs(),
        month: date.month,
        day: date.day,
    }
}

/// The law of these dates: the calendar has them, and they lie so many days after 1 January 1970.
pub fn in_calendar()
    ensures { (days : ℕ) → days ≤ 2932896 → IsDay days (spec.civil_day days) }
{}

/// The moment of a date and a second of the day, at a zone that is so many minutes ahead of UTC.
/// `None` where the calendar has no such date. A moment before 1970 is 0, and one after the year 9999 is its last.
pub fn moment_of(day: Day, second: u32, zone: i16) -> Option<u64>
    requires year { day.year ≤ 9999 }
    requires second { second < 86400 }
    requires west { negsuc 1438 ≤ℤ zone }
    requires east { zone ≤ℤ pos 1439 }
    ensures real { IsSome result ↔ IsCivilDate (pos day.year) day.month day.day }
    ensures value { IfSome result (λ at. at ≡ kept (seconds_of day second zone)) }
{
    if day.month > 12 || day.day > 31 {
        return None;
    }
    let Ok(date) = Date::new(day.year as i16, day.month as i8, day.day as i8) else {
        return None;
    };
    Some(kept_moment(seconds_at(date.to_unix_epoch_day(), second, zone)))
}

fn seconds_at(day: i32, second: u32, zone: i16) -> i64
    requires second { second < 86400 }
    ensures { result ≡ day *ℤ pos 86400 +ℤ pos second -ℤ (zone *ℤ pos 60) }
{
    day as i64 * 86400 + second as i64 - zone as i64 * 60
}

fn kept_moment(seconds: i64) -> u64
    ensures { result ≡ kept seconds }
{
    if seconds < 0 {
        0
    } else {
        (seconds as u64).min(LAST_MOMENT)
    }
}
