//! The journal of a desk: what each call on a desk in memory seals in it, and what its records leave.
//!
//! `on_disk` has the journal on a disk, `past` what lies before a gate of it, `seal` seals the record of an item, and `spelling` makes the bytes of
//! each. `make` begins a journal. `submit`, `act`, `snapshot` and `upgrade` do what users and the operator ask of a desk in memory and its open
//! journal. `texts` reads the texts of bodies, `bases` says when a base can stand. `read_texts` is the texts of a desk for whoever performs its items
//! once more, with those that a request brings (`new_texts`). `fresh` says where those lie that a cycle brings. `fault` says why a desk is not made
//! and an act not done, and `laws` what holds of runs of calls. In specs/, `Founding` says what a journal opens with, `Records` what records leave
//! one after the other and when one can stand. `Lasting` is what contracts see of a desk over a disk, `Stored` where its texts lie. `Sealing` says
//! what a call seals and what a crash at any moment of it leaves, `Making` and `Submitting` why calls are refused. `Reading` and `Telling` say what a
//! read leaves, and `Permanence` what holds of all that is kept. What carries the crate: `submit_open` and `act_open`, by `Seals`. It needs no cycle
//! in memory, so it is proved beside that: time_desk has the desk over its disk, its opening and its cycles.
#![tactic(auto)]

mod act;
mod bases;
mod fault;
mod fresh;
pub mod laws;
mod make;
mod new_texts;
mod on_disk;
mod past;
mod read_texts;
mod seal;
mod snapshot;
mod spelling;
mod submit;
mod texts;
mod upgrade;

pub use act::{act_open, item_of};
pub use bases::can_found;
pub use fault::{ActFault, MakeFault};
pub use fresh::{fresh_of, no_fresh};
pub use make::make_parts;
pub use new_texts::NewTexts;
pub use on_disk::Journal;
pub use past::Past;
pub use read_texts::Reading;
pub use snapshot::snapshot_open;
pub use spelling::{cycle_bytes, house_bytes, withdraw_bytes};
pub use submit::submit_open;
pub use upgrade::upgrade_open;
