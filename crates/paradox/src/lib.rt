//! After a cycle: whether an answer that a user was shown still holds, and the notice that tells the user.
//!
//! `answers` compares what was shown with what would be shown now, and `among` looks for the one in the other. `words` has the
//! verbs and the reasons, `reports` what a cycle reports, `letters` writes to users. What carries the crate: `broken` is the
//! table of reasons over what was shown and what is shown now, and `notice` is the text that names exactly a user's broken items.
#![tactic(auto)]

mod among;
mod answers;
pub mod laws;
mod letters;
mod reports;
mod words;

pub use answers::broken;
pub use letters::{notice, notices, user_name, users_told};
pub use reports::{BrokenItem, Report};
use undo_base::{Name, Sequence, Text, User};
use verb_core::BoxId;
pub use words::{Reason, Verb};

/// Broken and withdrawn items, in the order of the timeline before the cycle.
pub type BrokenList = Sequence<BrokenItem>;

/// Mailboxes with their new stamps, by rising user and name.
pub type Renewals = Sequence<(BoxId, u32)>;

/// Reports of cycles and withdrawals, each behind the key of its request, by rising key.
pub type Reports = Sequence<(Name, Report)>;

/// Notices, each with the user whom it goes to.
pub type Notices = Sequence<(User, Text)>;
