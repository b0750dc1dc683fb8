//! What one event may cost, and a whole run.
//!
//! In specs/, `Units` says how many units of a stream an event may end, `Items` how many items it performs, and `Reads` which texts it wants. `items` says
//! that an event of a mail program performs no more items than it may end units, and that no more records are sealed for it. By `reads` it wants texts no
//! more often, and so many octets each time. By `consoles` a console's request seals one record at most. `Courses` and `courses` say it of each event of
//! a whole run, and of all together; `Visits` has two such runs, and `mails` a call that does what one of them asks of a desk. What carries the crate: `runs_cost_little`, over `events_seal_few_records`,
//! `consoles_seal_one_record` and `events_read_few_texts`.
#![tactic(auto)]

mod consoles;
mod courses;
mod items;
mod mails;
mod reads;

pub use consoles::consoles_seal_one_record;
pub use courses::{runs_cost_little, streams_stay_served};
pub use items::{events_perform_few_items, events_seal_few_records, turns_perform_few_items};
pub use mails::deliver_mail;
pub use reads::{commands_read_few_texts, events_read_few_texts};
