//! A cycle in memory. The store is rewound to a point, and the repaired items behind it are replayed. What users were shown is
//! compared with what they would be shown now, and each user whose answers no longer hold gets a notice. So is what takes a cycle
//! back: both are a repair of the timeline. Items are in memory without their texts: those of deliveries, at which alone performing
//! looks, are read as they are performed.
//!
//! `before` is what a repair begins with, `due` the repair that is due at a moment, and `beginning` a store to which the first items
//! led. `running` performs items one after the other, and `replaying` level by level on workers. `settle` (in `settling`) makes the
//! rest of what replayed items show. `judge` finds the broken and withdrawn items, `showing` lets the broken ones show what they
//! show now. `telling` writes to the users, `notices` makes the notices items, and `report` what is told of them. `rework_by_levels`
//! (in `cycling`) performs the repaired items through the place one after the other, replays those behind it by levels, and settles;
//! `rework_in_order` is the same with no workers. `refused` says why there is no cycle, and `laws` what holds of every one. What a
//! repair is stands in cycle_rules. In specs/, `Begun` says what holds of a store in use and `Tasks` what is to be done to it.
//! `Comparing` is the repair as it is worked out: by what came of performing the items, from a beginning and from the base on, over
//! items as they were read. `Reaching` says what comes of its steps, `Leaving` what it leaves and `Refusing` why there is none.
//! `Places` says how each later item is judged at its own place, and `Permanence` what an IMAP client may rely on that keeps mail by
//! UID. What carries the crate: `Due::cycle` is the cycle exactly where `due_anew` says so, and `rework_by_levels` leaves what it
//! says, in steps that are counted from the beginning alone.
#![tactic(auto)]

mod before;
mod beginning;
mod cycling;
mod due;
mod judge;
pub mod laws;
mod notices;
mod refused;
mod replaying;
mod report;
mod running;
mod settling;
mod showing;
mod telling;

pub use before::Before;
pub use beginning::{Beginning, opened};
pub use cycling::{rework_by_levels, rework_in_order};
pub use due::{Due, Work};
pub use refused::CycleRefused;
pub use replay_crew::Shows;
pub use running::{Replayed, replay_in_order};
pub use settling::Rewound;
