//! What a journal keeps of mail: the one sentence that a user and an operator may rely on, of every state that a run leaves.
//!
//! In every state a user, name, UIDVALIDITY and UID name one message and one text; each message that was given lies once or was taken by one item.
//! `Keeping` of specs/ says so of the records of a run, and `Premises` has what is asked of a desk over its disk. What carries the crate:
//! `runs_keep_mail`, and `desks_run`: what a desk seals over its disk is such a run, and each image that a crash leaves opens as one of its states.
#![tactic(auto)]

mod laws;

pub use laws::{desks_run, runs_keep_mail};
