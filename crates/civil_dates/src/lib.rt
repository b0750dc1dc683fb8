//! Civil dates and moments: the days of the calendar, and their texts in mail and in IMAP.
//!
//! `days` leads between days, moments and dates by `jiff_core`; `months` has the months' letters; `dates` writes.
//! What carries the crate: `civil_day` gives the day that `in_calendar` says to be the calendar's, and `push_mail_date`
//! and `push_imap_date` write it.
#![tactic(auto)]

mod dates;
mod days;
mod months;

pub use dates::{push_imap_date, push_mail_date};
pub use days::{Day, civil_day, in_calendar, moment_of};
pub use months::{month_letters, month_of};
