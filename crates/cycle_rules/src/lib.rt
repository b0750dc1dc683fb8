//! What a cycle and a withdrawal are: definitions alone, which the cycle in memory and the journal's records share.
//!
//! In specs/, `Judging` says which later items are told of and what they show afterwards. `Repairing` has, line by line, what is left when items are
//! performed again in the place of the timeline, and `Cycles` what a cycle so performs. `Asking` says what is due to a request and what is kept after
//! it, `Withdrawals` the same of taking the last cycle back, and `Cutting` what cutting the past off leaves. `laws` says that what a cycle leaves can
//! be withdrawn, and that a cut keeps the store and what a cycle does. No other function stands here: mail_cycle works a cycle out, and desk_journal
//! says what its record leaves, side by side.
#![tactic(auto)]

pub mod laws;
