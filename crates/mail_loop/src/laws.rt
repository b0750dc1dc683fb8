//! What an IMAP client's turns are turns of, what licenses a hindrance, which mailbox an ask takes away, and that what was answered stays.
ghost use Rattle.std.specs.Prelude.{◌≡◌, ◌++◌, ◌∷◌, [], ℕ, is_some, Err, List, Ok, Option, Some};
ghost use Rattle.undo_base.specs.declared.keys.User.{User as TheUser};
ghost use Rattle.verb_core.specs.declared.ask.Ask.{Ask as TheAsk};
ghost use Rattle.verb_core.specs.declared.ask.Refused.{Refused};
ghost use Rattle.verb_core.specs.declared.item.Item.{Item as TheItem};
ghost use Rattle.verb_core.specs.Store.{IsValid};
ghost use Rattle.verb_core.specs.Live.{is_users, live};
ghost use Rattle.imap_stream.specs.Commands.{emptied, heard, heard_of, said_of};
ghost use Rattle.undo_outside.specs.declared.event.LinkNote.TheVariants.{Came};
ghost use Rattle.seal_log.specs.Settled.{IsSettled};
ghost use Rattle.verb_bytes.specs.declared.journal.JournalRecord.{JournalRecord};
ghost use Rattle.desk_journal.specs.Lasting.{Lasting};
ghost use Rattle.desk_journal.specs.Records.{payloads_of, state};
ghost use Rattle.desk_journal.specs.Stored.{HoldsTexts};
ghost use Rattle.smtp_lines.specs.declared.line.SmtpLine.{SmtpLine as TheLine};
ghost use Rattle.smtp_session.specs.declared.dialog.Dialog.{Dialog as TheDialog};
ghost use Rattle.imap_stream.specs.declared.next.Next.{Next as TheNext};
ghost use Rattle.imap_session.specs.declared.dialog.Dialog.{Dialog as TheReader};
ghost use Rattle.pop_session.specs.declared.dialog.Dialog.{Dialog as TheFetcher};
ghost use Rattle.store_kept.specs.Kept.{Kept, store_of};
ghost use Rattle.mail_desk.specs.Desk.{submitted};
ghost use Rattle.mail_loop.specs.Afterwards.{gone_between};
ghost use Rattle.mail_loop.specs.Took.{all_boxes, taken_by};
ghost use Rattle.mail_loop.specs.Session.{IsLicensedRow};
ghost use Rattle.mail_loop.specs.Hindrance.{Hindrance};
ghost use Rattle.mail_loop.specs.SmtpTurn.{smtp_session};
ghost use Rattle.mail_loop.specs.ImapTurn.{imap_session};
ghost use Rattle.mail_loop.specs.PopTurn.{pop_session};
ghost use Rattle.mail_loop.specs.State.{Seats, State};
ghost use Rattle.mail_loop.specs.Machine.{happens};
ghost use Rattle.mail_loop.specs.Serving.{Step, at_first, run};
ghost use Rattle.mail_loop.specs.Acknowledged.{AnswersLast, Course, Stretch, behind};

use time_desk::laws::{crashes_leave_states, seals_join};
use undo_outside::Disk;

/// Each command, literal mark and bad line of an IMAP client's whole stream is a turn once, however the stream was cut. The turns
/// of an event are what the stream gives with its bytes beside what it gave before.
pub fn turns_are_of_the_whole_stream()
    ensures said { (stream bytes : List ℕ) → said_of (stream ++ bytes) ≡ said_of stream ++ (heard (emptied (heard_of stream)) bytes).said }
    ensures rest { (stream bytes : List ℕ) → emptied (heard_of (stream ++ bytes)) ≡ emptied (heard (emptied (heard_of stream)) bytes) }
{}

/// What a hindered turn of an SMTP client, an IMAP client or a POP3 client says is licensed: what nothing licenses is the turn as it should be. A
/// record was not sealed only under a hindrance that a failed write licenses. A text was not read only under one that a failed read licenses, and was
/// another than was stored only where the disk gave it. A write found no memory only under one that the disk's want licenses. How many there are in a
/// turn the desk's counts tell (`HaveSealed`).
pub fn hindrances_are_licensed()
    ensures client { (h : Hindrance) (at : ℕ) (kept : Kept) (others : Seats) (d : TheDialog) (line : TheLine) → IsLicensedRow smtp_session h at kept others d line }
    ensures fetching { (h : Hindrance) (at : ℕ) (kept : Kept) (others : Seats) (d : TheFetcher) (line : TheLine) → IsLicensedRow pop_session h at kept others d line }
    ensures reader { (h : Hindrance) (at : ℕ) (kept : Kept) (others : Seats) (d : TheReader) (next : TheNext) → IsLicensedRow imap_session h at kept others d next }
{}

/// An ask that is done takes the mailbox away that a DELETE names, or that a RENAME names but INBOX, with its inferiors, and no other; one that
/// is refused takes none.
pub fn asks_take_away()
    ensures done { (kept : Kept) (at : ℕ) (by : Option TheUser) (ask : TheAsk) (item : TheItem) → IsValid (store_of kept) → is_users ask ≡ is_some by
        → live (store_of kept) kept.next at by ask kept.deep ≡ Ok item → gone_between kept (submitted kept at by ask).kept ≡ taken_by by ask (all_boxes kept) }
    ensures refused { (kept : Kept) (at : ℕ) (by : Option TheUser) (ask : TheAsk) (why : Refused) → live (store_of kept) kept.next at by ask kept.deep ≡ Err why
        → gone_between kept (submitted kept at by ask).kept ≡ [] }
{}

/// What was answered before a moment is in every image of that moment and of each later one. Serving went through a course, from a desk that
/// holds its texts, whose disk was settled behind records that leave what it kept. Then for each step of the course, since the moment behind
/// its turns: each image that a crash may leave stands for those records and all that were sealed by then. They leave what the machine keeps
/// then. Maybe it stands for more behind them, and all of them can stand. In the link's log a step's strings stand behind its event, and
/// that behind what was done for the steps before.
pub fn answered_is_kept<D: Disk>()
    ensures kept { (records : List JournalRecord) (old new : Lasting D) (course : List (Stretch D)) → IsSettled (D.told old.disk) old.gate (payloads_of records)
        → state records ≡ Some old.kept → HoldsTexts D.told old → Course D.told (at_first old.kept) old course new
        → AnswersLast D.told records old.kept course (D.told new.disk) }
    ensures log { (before after : List Step) (step : Step) (s : State) → (run (before ++ step ∷ after) s).notes
        ≡ (run before s).notes ++ Came step.event ∷ ((happens step.hindrances (run before s).state step.event).notes ++ (run after (behind (run before s).state step)).notes) }
{
    seals_join::<D>();
    crashes_leave_states::<D>();
}
