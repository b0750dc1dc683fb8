//! Moments as mail and IMAP write them.
//!
//! A crate of its own below the layers that write or read dates: one rule for the trace line, IMAP's dates and notices.
ghost use Rattle.std.specs.Prelude.{◌≡◌, ◌≤◌, ◌<◌, ◌++◌, ◌/◌, ◌%◌, IfOk, OnOk, OnErr, string_bytes};
ghost use Rattle.civil_dates.specs.Dates as spec;
ghost use Rattle.civil_dates.specs.Days as days_spec;

use crate::{Day, civil_day, month_letters};
use std::alloc::{AllocError, Global};
use undo_base::{LAST_MOMENT, NoMemory, Text};

fn mail_date_of(alloc: Global, day: Day, second: u32) -> Result<String, AllocError>
    requires month { 1 ≤ day.month }
    requires months { day.month ≤ 12 }
    requires second { second < 86400 }
    ensures { IfOk result (λ text. string_bytes text ≡ spec.mail_date_of day second) }
{
    let month = month_letters(day.month);
    let (hour, minute) = (second / 3600, second / 60 % 60);
    format!(in alloc;
        "{} {} {} {:02}:{:02}:{:02} +0000",
        day.day,
        month,
        day.year,
        hour,
        minute,
        second % 60
    )
}

fn imap_date_of(alloc: Global, day: Day, second: u32) -> Result<String, AllocError>
    requires month { 1 ≤ day.month }
    requires months { day.month ≤ 12 }
    requires date { day.day ≤ 31 }
    requires second { second < 86400 }
    ensures { IfOk result (λ text. string_bytes text ≡ spec.imap_date_of day second) }
{
    let month = month_letters(day.month);
    let (hour, minute) = (second / 3600, second / 60 % 60);
    format!(in alloc;
        "{:2}-{}-{} {:02}:{:02}:{:02} +0000",
        day.day,
        month,
        day.year,
        hour,
        minute,
        second % 60
    )
}

/// Adds a moment as mail has it, `7 Jan 2005 10:00:00 +0000` (RFC 5322, 3.3), at the end of a text.
pub fn push_mail_date(alloc: Global, out: &mut Text, at: u64) -> Result<(), NoMemory>
    requires { at ≤ LAST_MOMENT }
    ensures ok { OnOk result (out.new ≡ out.old ++ spec.mail_date at) }
    ensures err { OnErr result (out.new ≡ out.old) }
{
    let date = mail_date_of(alloc, civil_day((at / 86400) as u32), (at % 86400) as u32)?;
    out.extend(date.as_bytes())
}

/// Adds a moment as IMAP has it, ` 7-Jan-2005 10:00:00 +0000`, without quotes (RFC 3501, 9), at the end of a text.
pub fn push_imap_date(alloc: Global, out: &mut Text, at: u64) -> Result<(), NoMemory>
    requires { at ≤ LAST_MOMENT }
    ensures ok { OnOk result (out.new ≡ out.old ++ spec.imap_date at) }
    ensures err { OnErr result (out.new ≡ out.old) }
{
    let date = imap_date_of(alloc, civil_day((at / 86400) as u32), (at % 86400) as u32)?;
    out.extend(date.as_bytes())
}
