//! The top call.
//!
//! A word that is no text (not UTF-8) is a faulty command line, status 1; want of memory in reading the words is status 8, and
//! its line is written. `--help` and `--version` are words that begin with `-`: status 1.
//!
//! What each status says is one record over the status (`Comes`), in place of a clause a status.
//!
//! Status 5 says what failed. It is formatting or opening, as those calls say of the disk, where `serve` took no event; or a
//! write or a sync after a store was opened, where no read failed. A disk of length 0 opens no store, so there neither an event
//! nor a count comes first: beside 3 such a disk gives 5 of opening, and 8.
ghost use Rattle.std.specs.Prelude.{◌≡◌, ◌⊎◌, ℕ, false, Some, IfErr, IfOk, map, string_bytes};
ghost use Rattle.command_words.specs.Usage.{command_of};
ghost use Rattle.mail_proxy.specs.Answers.{Answers, Does};
ghost use Rattle.mail_proxy.specs.Shows.{Shows};
ghost use Rattle.mail_proxy.specs.Causes.{Comes};
ghost use Rattle.mail_proxy.specs.Headline.{IsServed};
ghost use Rattle.mail_proxy.specs.Promises.{HonestDisk};
ghost use Rattle.mail_proxy.specs.Profiles.{uses_disk, uses_link, uses_text};
ghost use Rattle.mail_proxy.specs.Completing.{EndsInTime, NoneFailed};
ghost use Rattle.mail_proxy.specs.Due.{IsDue, IsHindered};
ghost use Rattle.mail_proxy.specs.Plans.{end_of};
ghost use Rattle.mail_proxy.specs.Lines.{no_memory};
ghost use Rattle.base_cut.specs.Writing.{Wrote};
ghost use Rattle.mail_proxy.specs.Runs.{Runs};
ghost use Rattle.mail_proxy.specs.Texts.{End};

use crate::audit::plan_audit;
use crate::check::plan_check;
use crate::cut::cut_to;
use crate::grow::plan_grow;
use crate::init::plan_init;
use crate::plan::{LastLine, Plan, only_line, show, without_memory};
use crate::play::plan_play;
use crate::script::plan_script;
use crate::serve::plan_serve;
use command_words::{Command, WordsRefused, one_reading, read_words};
use cut_laws::cuts_open;
use std::alloc::Global;
use std::thread::Threads;
use time_desk::laws::audits_settle_truth;
use time_desk::one_opening;
use undo_base::NoMemory;
use undo_outside::{Disk, Gate, Link, Sink, Source};

/// Writes what is planned, and answers the status and the disk.
fn shown<D, W: Sink>(alloc: Global, planned: (Plan, D), out: &mut W) -> (u8, D)
    ensures shows { Shows (end_of planned.0 planned.1).status (end_of planned.0 planned.1).output result.0 (W.told out.old) (W.told out.new) }
    ensures disk { result.1 ≡ planned.1 }
{
    let (plan, disk) = planned;
    (show(alloc, &plan, out), disk)
}

/// Does what a command is to do.
fn do_command<R: Threads + Sync, S: Source, L: Link, D: Disk + Drop, W: Sink, G: Gate>(
    rt: &R,
    alloc: Global,
    command: Command,
    text: &mut S,
    link: &mut L,
    disk: D,
    out: &mut W,
    gate: &G,
) -> (u8, D)
    requires { (S.told text.old).ended ≡ false }
    ensures does { (end : End D) × Does D.told (Some command) (S.told text.old) (S.told text.new) (L.told link.old) (L.told link.new) result.0 (W.told out.old) (W.told out.new) disk end ×
        Shows end.status end.output result.0 (W.told out.old) (W.told out.new) × (result.1 ≡ end.disk) }
    ensures unread { uses_text (Some command) ≡ false → text.new ≡ text.old }
    ensures unlinked { uses_link (Some command) ≡ false → link.new ≡ link.old }
{
    match command {
        Command::Init => shown(alloc, plan_init(alloc, text, disk), out),
        Command::Serve { .. } => shown(alloc, plan_serve(rt, alloc, link, disk, gate), out),
        Command::Script => shown(alloc, plan_script(rt, alloc, text, disk, gate), out),
        Command::Play => shown(alloc, plan_play(rt, alloc, text, disk, gate), out),
        Command::Grow { rounds } => shown(alloc, (plan_grow(rt, alloc, rounds, gate), disk), out),
        Command::Check => shown(alloc, plan_check(alloc, disk), out),
        Command::Cut { point } => cut_to(alloc, point, disk, out),
        Command::Audit => shown(alloc, plan_audit(alloc, disk), out),
    }
}

/// Does what the words say.
fn do_words<R: Threads + Sync, S: Source, L: Link, D: Disk + Drop, W: Sink, G: Gate>(
    rt: &R,
    alloc: Global,
    words: &Vec<String>,
    text: &mut S,
    link: &mut L,
    disk: D,
    out: &mut W,
    gate: &G,
) -> (u8, D)
    requires { (S.told text.old).ended ≡ false }
    ensures says { (end : End D) × Answers D.told (map string_bytes words.now.items) (S.told text.old) (S.told text.new) (L.told link.old) (L.told link.new) result.0 (W.told out.old) (W.told out.new) disk end ×
        Shows end.status end.output result.0 (W.told out.old) (W.told out.new) × (result.1 ≡ end.disk) }
    ensures unread { uses_text (command_of (map string_bytes words.now.items)) ≡ false → text.new ≡ text.old }
    ensures unlinked { uses_link (command_of (map string_bytes words.now.items)) ≡ false → link.new ≡ link.old }
{
    match read_words(alloc, words) {
        Ok(command) => do_command(rt, alloc, command, text, link, disk, out, gate),
        Err(WordsRefused::Usage) => shown(alloc, (only_line(alloc, 1, LastLine::Usage), disk), out),
        Err(WordsRefused::NoMemory) => shown(
            alloc,
            (only_line(alloc, 8, LastLine::NoMemory), disk),
            out,
        ),
    }
}

/// Does what the words say, and answers the status and the disk.
pub fn run<R: Threads + Sync, S: Source, L: Link, D: Disk + Drop, W: Sink, G: Gate>(
    rt: &R,
    alloc: Global,
    words: &Vec<String>,
    text: &mut S,
    link: &mut L,
    disk: D,
    out: &mut W,
    gate: &G,
) -> (u8, D)
    // The text is read from its beginning on, or at least not behind its end.
    requires { (S.told text.old).ended ≡ false }
    // The status, what is written and the disk are those of the words, the text, the disk and the machine's run over its events.
    ensures says { (end : End D) × Answers D.told (map string_bytes words.now.items) (S.told text.old) (S.told text.new) (L.told link.old) (L.told link.new) result.0 (W.told out.old) (W.told out.new) disk end ×
        Shows end.status end.output result.0 (W.told out.old) (W.told out.new) × (result.1 ≡ end.disk) }
    // Mail that was served to the end over an honest disk: what the machine answered, what the disk stands for, and what lasts.
    ensures served { result.0 ≡ 0 → HonestDisk (D.told disk) → IsServed (command_of (map string_bytes words.now.items))
        (record { text = S.told text.old; link = L.told link.old; disk = D.told disk; out = W.told out.old })
        (record { text = S.told text.new; link = L.told link.new; disk = D.told result.1; out = W.told out.new }) }
    // When each status comes, and what is written then.
    ensures comes { Comes (command_of (map string_bytes words.now.items))
        (record { text = S.told text.old; link = L.told link.old; disk = D.told disk; out = W.told out.old })
        (record { text = S.told text.new; link = L.told link.new; disk = D.told result.1; out = W.told out.new }) result.0 }
    // The status that is due by the words, the text and the disk comes, unless a call failed or memory was wanted.
    ensures due { (k : ℕ) → IsDue (command_of (map string_bytes words.now.items)) (record { text = S.told text.old; link = L.told link.old; disk = D.told disk; out = W.told out.old }) k
        → (result.0 ≡ k) ⊎ IsHindered result.0 }
    // Where no call failed and an end came in time, it comes, or that of want of memory.
    ensures complete { (k : ℕ) → IsDue (command_of (map string_bytes words.now.items)) (record { text = S.told text.old; link = L.told link.old; disk = D.told disk; out = W.told out.old }) k
        → NoneFailed (record { text = S.told text.old; link = L.told link.old; disk = D.told disk; out = W.told out.old })
        (record { text = S.told text.new; link = L.told link.new; disk = D.told result.1; out = W.told out.new })
        → EndsInTime (command_of (map string_bytes words.now.items)) (record { text = S.told text.old; link = L.told link.old; disk = D.told disk; out = W.told out.old })
        (record { text = S.told text.new; link = L.told link.new; disk = D.told result.1; out = W.told out.new })
        → (result.0 ≡ k) ⊎ (result.0 ≡ 8) }
    // What is not used gets no call.
    ensures text { uses_text (command_of (map string_bytes words.now.items)) ≡ false → text.new ≡ text.old }
    ensures link { uses_link (command_of (map string_bytes words.now.items)) ≡ false → link.new ≡ link.old }
    ensures disk { uses_disk (command_of (map string_bytes words.now.items)) ≡ false → result.1 ≡ disk }
{
    one_opening();
    one_reading();
    audits_settle_truth();
    cuts_open();
    do_words(rt, alloc, words, text, link, disk, out, gate)
}

/// The program's status, and the disk: does what the words say, where memory was found for them.
pub fn status_of_words<R: Threads + Sync, S: Source, L: Link, D: Disk + Drop, W: Sink, G: Gate>(
    rt: &R,
    alloc: Global,
    words: Result<&Vec<String>, NoMemory>,
    text: &mut S,
    link: &mut L,
    disk: D,
    out: &mut W,
    gate: &G,
) -> (u8, D)
    requires { (S.told text.old).ended ≡ false }
    ensures found { IfOk words.entry (λ list. Runs D.told (map string_bytes list.now.items) disk result.1
        (record { text = S.told text.old; link = L.told link.old; disk = D.told disk; out = W.told out.old })
        (S.told text.new) (L.told link.new) (W.told out.new) result.0) }
    ensures lacked { IfErr words.entry (λ _. (result.0 ≡ 8) × Wrote (W.told out.old) (W.told out.new) no_memory × (text.new ≡ text.old) × (link.new ≡ link.old) × (result.1 ≡ disk)) }
    // What is not used gets no call.
    ensures text { IfOk words.entry (λ list. uses_text (command_of (map string_bytes list.now.items)) ≡ false → text.new ≡ text.old) }
    ensures link { IfOk words.entry (λ list. uses_link (command_of (map string_bytes list.now.items)) ≡ false → link.new ≡ link.old) }
    ensures disk { IfOk words.entry (λ list. uses_disk (command_of (map string_bytes list.now.items)) ≡ false → result.1 ≡ disk) }
{
    match words {
        Ok(words) => run(rt, alloc, words, text, link, disk, out, gate),
        Err(NoMemory) => (without_memory(out), disk),
    }
}
