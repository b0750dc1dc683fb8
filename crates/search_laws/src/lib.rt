//! What SEARCH means, said in the words of FETCH, and what of a message it need not look at.
//!
//! Both stand on header_fields; here what SEARCH looks at is shown to be what the sections of mail_sections show, and its sets to be FETCH's.
//! `notices` says when a cycle tells of a SEARCH.
#![tactic(auto)]

mod laws;
mod notices;

pub use laws::{
    searches_find_what_matches, searches_look_at_what_fetches_show,
    sets_mean_the_same_in_searches_and_fetches, what_is_not_looked_at_does_not_count,
};
pub use notices::searches_are_told_of_by_what_they_showed;
