//! What is kept of a store in use: all that is needed to have it again, and to go on.
//!
//! In specs/, `Kept` is the house, the base, the store, the items in force, the stamps, the next number and the reports of cycles
//! and withdrawals. It is also the marks of the snapshots and what the last cycle left to be withdrawn, with what an item and a
//! snapshot make of it. `Texts` says where a text comes from, `Bases` what holds of the base, the store before the first item.
//! `Coming` says what holds of what the last cycle left to be withdrawn, and `Places` where a report stands among others. `base`
//! holds what makes the base, `reports` finds a report by the key of its request and puts one in its place. `laws` says that a
//! report which is kept is found from then on, and that what can come back can do so later. What carries the crate:
//! `Base::store`, `report_of` and `put_report`, whose clauses name the definitions.
#![tactic(auto)]

mod base;
pub mod laws;
mod reports;
mod texts;

pub use base::{Base, Past};
pub use paradox::Reports;
pub use reports::{put_report, report_of};
pub use texts::BaseTexts;
