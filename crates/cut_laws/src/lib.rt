//! What a cut leaves, said in the words of the journal's records, what its bytes open as, and what lasts over it.
//!
//! A cut of what is kept has records of its own: a Format, a Base, the Texts of the messages in it, and the items that were kept. Here
//! it is shown that these records leave just what the cut is, and that their journal opens as that, and a beginning of it as nothing.
//! What carries the crate: `cuts_open`, `beginnings_of_cuts_are_refused`, `uids_last_over_a_cut` and `messages_of_a_base_have_one_fate`.
#![tactic(auto)]

mod laws;

pub use laws::{
    beginnings_of_cuts_are_refused, cuts_of_journals_open, cuts_open, cuts_open_as_they_are,
    cuts_start, images_hold_few_mailboxes, journals_can_be_cut, messages_of_a_base_have_one_fate,
    stopped_cuts_are_refused, uids_last_over_a_cut,
};
