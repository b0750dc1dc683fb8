//! A session over ann's INBOX, call by call.
ghost use Rattle.std.specs.Prelude.{◌≡◌, true};
ghost use Rattle.imap_session.specs.Dialog.{is_at_home};

use crate::given::{Desk, name, new_desk};
use imap_lines::{ImapCommand, RawCommand, read_command};
use imap_session::{ImapOut, ImapSession};
use seal_log::ReadFault;
use std::alloc::Global;
use std::test::Fail;
use undo_base::{Text, Texts, User};
use verb_core::{Deed, Item, Shown, SubmitFault};

/// A session and what it sees.
#[derive(Drop)]
pub(crate) struct Talk {
    desk: Desk,
    session: ImapSession,
    ghost home: { is_at_home desk.house session ≡ true },
}

/// A line; behind one with a space at its end stands a literal.
fn raw(alloc: Global, line: &[u8]) -> Result<RawCommand, Fail> {
    let mut lines = Texts::new(alloc);
    let mut literals = Texts::new(alloc);
    lines.push(Text::of(alloc, line)?)?;
    if line.ends_with(b" ") {
        lines.push(Text::new(alloc))?;
        literals.push(Text::of(alloc, b"hi")?)?;
    }
    Ok(RawCommand { lines, literals })
}

fn command(alloc: Global, line: &[u8]) -> Result<ImapCommand, Fail> {
    let raw = raw(alloc, line)?;
    match read_command(alloc, &raw) {
        Ok(command) => Ok(command),
        Err(_) => Err(Fail::new("no command")),
    }
}

/// What comes of a command.
fn obeyed(alloc: Global, talk: &mut Talk, command: &ImapCommand) -> Result<ImapOut, Fail> {
    if !talk.session.is_free() {
        return Err(Fail::new("something is awaited"));
    }
    Ok(
        talk.session.take(
            alloc,
            &talk.desk.house,
            &talk.desk.store,
            &talk.desk.stamps,
            &talk.desk.shelf,
            false,
            command,
        )?,
    )
}

/// What comes of a line.
pub(crate) fn takes(alloc: Global, talk: &mut Talk, line: &[u8]) -> Result<ImapOut, Fail> {
    let command = command(alloc, line)?;
    let out = obeyed(alloc, talk, &command);
    drop(command);
    out
}

/// What comes of the texts that are awaited, or of why they can't be had.
pub(crate) fn reads(
    alloc: Global,
    talk: &mut Talk,
    texts: &Result<Texts, ReadFault>,
) -> Result<ImapOut, Fail> {
    if !talk.session.is_reading() {
        return Err(Fail::new("no texts are awaited"));
    }
    Ok(talk.session.read(alloc, texts)?)
}

/// What ann asked is done, or there is a fault.
fn outcome(alloc: Global, fault: Option<SubmitFault>) -> Result<Result<Item, SubmitFault>, Fail> {
    match fault {
        Some(fault) => Ok(Err(fault)),
        None => Ok(Ok(Item {
            number: 4,
            at: 1105092000,
            by: Some(User(0)),
            rev: 0,
            deed: Deed::Status {
                mailbox: name(alloc, b"INBOX")?,
            },
            shown: Shown::Nothing,
        })),
    }
}

fn settled(
    alloc: Global,
    talk: &mut Talk,
    outcome: &Result<Item, SubmitFault>,
) -> Result<ImapOut, Fail> {
    if !talk.session.is_due() {
        return Err(Fail::new("no outcome is awaited"));
    }
    Ok(
        talk.session
            .done(alloc, &talk.desk.store, &talk.desk.stamps, outcome)?,
    )
}

/// Whether this is said, as the last answer or not.
pub(crate) fn is_said(out: &ImapOut, last: bool, answer: &[u8]) -> bool {
    match out {
        ImapOut::Say(text) => !last && text.bytes() == answer,
        ImapOut::Bye(text) => last && text.bytes() == answer,
        ImapOut::Read(_) => false,
        ImapOut::Submit(_) => false,
    }
}

/// Whether the store is asked.
pub(crate) fn is_asked(out: &ImapOut) -> bool {
    match out {
        ImapOut::Say(_) => false,
        ImapOut::Bye(_) => false,
        ImapOut::Read(_) => false,
        ImapOut::Submit(_) => true,
    }
}

/// Whether this is said of a line at once.
pub(crate) fn hears(
    alloc: Global,
    talk: &mut Talk,
    line: &[u8],
    answer: &[u8],
) -> Result<bool, Fail> {
    let out = takes(alloc, talk, line)?;
    let said = is_said(&out, false, answer);
    drop(out);
    Ok(said)
}

/// Whether the store is asked of a line.
pub(crate) fn asks(alloc: Global, talk: &mut Talk, line: &[u8]) -> Result<bool, Fail> {
    let out = takes(alloc, talk, line)?;
    let asked = is_asked(&out);
    drop(out);
    Ok(asked)
}

fn settles_by(
    alloc: Global,
    talk: &mut Talk,
    outcome: &Result<Item, SubmitFault>,
    last: bool,
    answer: &[u8],
) -> Result<bool, Fail> {
    let out = settled(alloc, talk, outcome)?;
    let said = is_said(&out, last, answer);
    drop(out);
    Ok(said && talk.session.is_free())
}

/// Whether this is said of what was asked, and nothing is awaited any more.
pub(crate) fn settles(
    alloc: Global,
    talk: &mut Talk,
    fault: Option<SubmitFault>,
    last: bool,
    answer: &[u8],
) -> Result<bool, Fail> {
    let outcome = outcome(alloc, fault)?;
    let told = settles_by(alloc, talk, &outcome, last, answer);
    drop(outcome);
    told
}

/// A session in which nobody is logged in.
pub(crate) fn new_talk(alloc: Global) -> Result<Talk, Fail> {
    let desk = new_desk(alloc)?;
    Ok(Talk {
        desk,
        session: ImapSession::new(),
    })
}

/// Whether ann comes to have selected her INBOX.
pub(crate) fn selects(alloc: Global, talk: &mut Talk) -> Result<bool, Fail> {
    let entered = hears(alloc, talk, b"a LOGIN ann a1", b"a OK LOGIN done.\r\n")?;
    let asked = asks(alloc, talk, b"b SELECT INBOX")?;
    let told = settles(alloc, talk, None, false, OPENED)?;
    Ok(entered && asked && told)
}

const OPENED: &[u8] =
    b"* FLAGS (\\Answered \\Flagged \\Deleted \\Seen \\Draft)\r\n* 2 EXISTS\r\n* 0 RECENT\r\n* OK [UNSEEN 1] First unseen.\r\n* OK [PERMANENTFLAGS (\\Answered \\Flagged \\Deleted \\Seen \\Draft)] Kept.\r\n* OK [UIDNEXT 3] Next.\r\n* OK [UIDVALIDITY 1] Stamp.\r\nb OK [READ-WRITE] SELECT done.\r\n";
