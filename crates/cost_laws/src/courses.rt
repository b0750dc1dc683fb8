//! What a whole run of serving costs. These functions do nothing but name a law: their contracts are laws of the definitions.
ghost use Rattle.std.specs.Prelude.{◌≡◌, false, List};
ghost use Rattle.undo_outside.specs.declared.event.Event.{Event as TheEvent};
ghost use Rattle.verb_core.specs.declared.item.Item.{Item as TheItem};
ghost use Rattle.desk_journal.specs.Lasting.{Lasting};
ghost use Rattle.desk_journal.specs.Stored.{HoldsTexts};
ghost use Rattle.store_kept.specs.Kept.{Kept};
ghost use Rattle.mail_loop.specs.Acknowledged.{Course, Stretch};
ghost use Rattle.mail_loop.specs.Machine.{Hindrances, happens};
ghost use Rattle.mail_loop.specs.Serving.{Step, at_first, run};
ghost use Rattle.mail_loop.specs.State.{State};
ghost use Rattle.cost_laws.specs.Courses.{AreServed, CostLittle, EachCostsLittle};
ghost use Rattle.cost_laws.specs.Visits.{Delivers, a_delivery, a_visit};

use desk_journal::laws::seals_join;
use smtp_lines::what_is_kept_goes_on;
use undo_outside::Disk;

/// Whatever happens, and whatever hinders it, of each open connection's stream each whole unit was served. So it is in each state of a run.
pub fn streams_stay_served()
    ensures keeps { (h : Hindrances) (s : State) (event : TheEvent) → AreServed s.seats → AreServed (happens h s event).state.seats }
    ensures runs { (kept : Kept) (steps : List Step) → AreServed (run steps (at_first kept)).state.seats }
{
    what_is_kept_goes_on();
}

/// Serving goes through a course, from a desk that holds its texts, as `serve_events` does (`WentThrough`). Then each event of it costs little: of n octets
/// that a mail program sends no more than half of n + 1 records are sealed, of a POP3 client n + 1, of a console one. And one snapshot at most is sealed
/// behind an event's strings; what brings no bytes seals no more. So no more records are sealed in all than octets come, and two for each event. A mail
/// program wants texts no more often than half of n + 1 times, each time one or no more than 268,435,456 octets. Which texts a console's request reads no
/// definition of its turn tells.
pub fn runs_cost_little<D: Disk>()
    ensures each { (old new : Lasting D) (course : List (Stretch D)) → HoldsTexts D.told old → Course D.told (at_first old.kept) old course new
        → EachCostsLittle (at_first old.kept) course }
    ensures together { (old new : Lasting D) (course : List (Stretch D)) → HoldsTexts D.told old → Course D.told (at_first old.kept) old course new
        → CostLittle (at_first old.kept) course }
    // So an SMTP client may join an open desk, say NOOP and leave.
    ensures example { (desk : Lasting D) → desk.closed ≡ false → Course D.told (at_first desk.kept) desk (a_visit desk) desk }
    // And one may join a new desk, send a mail, whose record is sealed, and leave.
    ensures mail { (old new : Lasting D) (item : TheItem) → Delivers D.told old new item → Course D.told (at_first old.kept) old (a_delivery old new item) new }
{
    streams_stay_served();
    seals_join::<D>();
}
