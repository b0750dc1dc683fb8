//! The desk over a disk: each item is sealed in the journal, and then performed in memory.
//!
//! `desk` has the desk over its journal, and tells its parts. `make` begins a journal, `start` reads one, with `front` for what it opens
//! with, a base that was cut off too. `standing` has the records that can stand behind that, `lying` those of which the text is not read;
//! `openings` the law that an image opens in one way. `submit` and `act` take what users and the operator ask, `snapshot` keeps the store
//! of a moment, `upgrade` lets names have superiors. `texts` reads the texts of bodies, each by what desk_journal does, and `lend` lends
//! them. `cycle` and `withdrawal` take what the operator asks of the past, a `request`: a cycle, or to take the last one back. `doing` does
//! either, `redo` has the repair in memory, also of a journal's cycles and withdrawals that are performed again, and `beginning` what it
//! begins with. `deliveries` has the texts that these ask for. `plan` tells which later items could be done side by side. `cut` has what a
//! new journal is made of whose past is cut off, and `audit` which record is not true. `fault` says why a desk is not started and a cycle
//! not done. `permanence` has the laws that no UID ever names two messages, and that each message is accounted for. `laws` passes on what
//! desk_journal says of runs of calls, and says what an audit settles. In specs/, `Opening` says what an image opens as, `Standing` how its
//! records are read, and `Fronts` its front. `Cycling` says what becomes of a request for a cycle, `Withdrawing` of one for a withdrawal,
//! `Requests` of either, and `Serving` what these begin with. `Planning` says what the plan of later items is, `Replaying` what it reads,
//! and `Cutting` what a cut is made of. `Auditing` says which record is not true, and `Lending` what a desk tells whose texts are read. All
//! else is said in desk_journal. What carries the crate: `Desk::submit` and `Desk::act`, by `Seals`, `Desk::cycle`, by `Cycles`,
//! `Desk::start`, by `Starts`, `Desk::cut_parts`, by `Cuts`, and the laws of `permanence`.
#![tactic(auto)]

mod act;
mod audit;
mod beginning;
mod cut;
mod cycle;
mod deliveries;
mod desk;
mod doing;
mod fault;
mod front;
mod heads;
pub mod laws;
mod lend;
mod lying;
mod make;
mod openings;
pub mod permanence;
mod plan;
mod redo;
mod request;
mod snapshot;
mod standing;
mod start;
mod submit;
mod texts;
mod upgrade;
mod withdrawal;

pub use desk::Desk;
pub use desk_journal::{ActFault, MakeFault};
pub use fault::{CycleFault, StartFault, WithdrawFault};
pub use openings::one_opening;
pub use plan::items_are_resolved_in_turn;
