//! What a client is told besides untagged data (RFC 3501, section 7.1).
ghost use Rattle.std.specs.Prelude.{◌≡◌, ◌++◌, IfErr, IfOk, OnOk};
ghost use Rattle.imap_session.specs.Words as spec;

use std::alloc::Global;
use undo_base::{Name, NoMemory, Text};
use verb_core::Refused;

/// The words of a command, as they are told.
#[derive(Clone, Copy)]
pub enum Word {
    Capability,
    Noop,
    Logout,
    Login,
    Create,
    Delete,
    Rename,
    Subscribe,
    Unsubscribe,
    List,
    Lsub,
    Status,
    Append,
    Check,
    Close,
    Expunge,
    Fetch,
    Store,
    Copy,
    Search,
    UidFetch,
    UidStore,
    UidCopy,
    UidSearch,
}

/// What is told of a command behind its tag.
#[derive(Clone, Copy)]
pub enum Answer {
    Done(Word),
    /// A mailbox is selected, for changes or not.
    Opened { writes: bool },
    UnknownCommand,
    BadArguments,
    NotOffered,
    WrongState,
    LoginFailed,
    ReadOnly,
    BadNumber,
    /// Strings of a charset that is not known.
    BadCharset,
    Refused(Refused),
    DiskFault,
}

pub(crate) fn fetch_word(by_uid: bool) -> Word
    ensures { result ≡ spec.fetch_word by_uid }
{
    if by_uid { Word::UidFetch } else { Word::Fetch }
}

pub(crate) fn store_word(by_uid: bool) -> Word
    ensures { result ≡ spec.store_word by_uid }
{
    if by_uid { Word::UidStore } else { Word::Store }
}

pub(crate) fn copy_word(by_uid: bool) -> Word
    ensures { result ≡ spec.copy_word by_uid }
{
    if by_uid { Word::UidCopy } else { Word::Copy }
}

pub(crate) fn search_word(by_uid: bool) -> Word
    ensures { result ≡ spec.search_word by_uid }
{
    if by_uid {
        Word::UidSearch
    } else {
        Word::Search
    }
}

/// The word of LIST, or of LSUB.
pub(crate) fn list_word(subscribed: bool) -> Word
    ensures { result ≡ spec.list_word subscribed }
{
    if subscribed { Word::Lsub } else { Word::List }
}

pub(crate) fn word_text(word: Word) -> &'static [u8]
    ensures { result.now ≡ spec.word_text word }
{
    match word {
        Word::Capability => b"CAPABILITY",
        Word::Noop => b"NOOP",
        Word::Logout => b"LOGOUT",
        Word::Login => b"LOGIN",
        Word::Create => b"CREATE",
        Word::Delete => b"DELETE",
        Word::Rename => b"RENAME",
        Word::Subscribe => b"SUBSCRIBE",
        Word::Unsubscribe => b"UNSUBSCRIBE",
        Word::List => b"LIST",
        Word::Lsub => b"LSUB",
        Word::Status => b"STATUS",
        Word::Append => b"APPEND",
        Word::Check => b"CHECK",
        Word::Close => b"CLOSE",
        Word::Expunge => b"EXPUNGE",
        Word::Fetch => b"FETCH",
        Word::Store => b"STORE",
        Word::Copy => b"COPY",
        Word::Search => b"SEARCH",
        Word::UidFetch => b"UID FETCH",
        Word::UidStore => b"UID STORE",
        Word::UidCopy => b"UID COPY",
        Word::UidSearch => b"UID SEARCH",
    }
}

fn refusal_text(refused: Refused) -> &'static [u8]
    ensures { result.now ≡ spec.refusal_text refused }
{
    match refused {
        Refused::NoBox => b"NO No such mailbox.",
        Refused::Exists => b"NO Mailbox exists.",
        Refused::HasInferiors => b"NO Mailbox has inferiors.",
        Refused::Fixed => b"NO Mailbox is fixed.",
        Refused::NameShape => b"NO Bad mailbox name.",
        Refused::TryCreate => b"NO [TRYCREATE] No such mailbox.",
        Refused::Gone => b"NO Some messages are gone.",
        Refused::TooMany { asked: _ } => b"NO Too many messages.",
        Refused::TooLarge { asked: _ } => b"NO Too large.",
        Refused::BoxesFull => b"NO Too many mailboxes.",
        Refused::UidWide => b"NO Mailbox numbers used up.",
        Refused::Numbers { next: _ } => b"NO Numbers used up.",
        Refused::NoMemory => b"NO No memory.",
    }
}

fn opened_text(writes: bool) -> &'static [u8]
    ensures { result.now ≡ spec.answer_text (Answer.Opened writes) }
{
    if writes {
        b"OK [READ-WRITE] SELECT done."
    } else {
        b"OK [READ-ONLY] EXAMINE done."
    }
}

fn push_done(out: &mut Text, word: Word) -> Result<(), NoMemory>
    ensures { OnOk result (out.new ≡ out.old ++ spec.answer_text (Answer.Done word)) }
{
    out.extend(b"OK ")?;
    out.extend(word_text(word))?;
    out.extend(b" done.")
}

/// What stands behind the tag, or the word of the command that is done.
fn fixed_text(answer: Answer) -> Result<&'static [u8], Word>
    ensures text { IfOk result (λ text. text.now ≡ spec.answer_text answer) }
    ensures word { IfErr result (λ word. spec.answer_text (Answer.Done word) ≡ spec.answer_text answer) }
{
    match answer {
        Answer::Done(word) => Err(word),
        Answer::Opened { writes } => Ok(opened_text(writes)),
        Answer::UnknownCommand => Ok(b"BAD Unknown command."),
        Answer::BadArguments => Ok(b"BAD Bad arguments."),
        Answer::NotOffered => Ok(b"NO Not offered."),
        Answer::WrongState => Ok(b"BAD Wrong state."),
        Answer::LoginFailed => Ok(b"NO Login failed."),
        Answer::ReadOnly => Ok(b"NO Read only."),
        Answer::BadNumber => Ok(b"BAD Bad message number."),
        Answer::BadCharset => Ok(b"NO [BADCHARSET] Charset not known."),
        Answer::Refused(refused) => Ok(refusal_text(refused)),
        Answer::DiskFault => Ok(b"NO Disk fault."),
    }
}

/// What stands behind the tag.
fn push_answer(out: &mut Text, answer: Answer) -> Result<(), NoMemory>
    ensures { OnOk result (out.new ≡ out.old ++ spec.answer_text answer) }
{
    match fixed_text(answer) {
        Ok(text) => out.extend(text),
        Err(word) => push_done(out, word),
    }
}

/// Adds the answer to the command of a tag.
pub(crate) fn push_tagged(out: &mut Text, tag: &Name, answer: Answer) -> Result<(), NoMemory>
    ensures { OnOk result (out.new ≡ out.old ++ spec.tagged tag.now answer) }
{
    out.extend(tag.bytes())?;
    out.extend(b" ")?;
    push_answer(out, answer)?;
    out.extend(b"\r\n")
}

/// The answer to the command of a tag.
pub(crate) fn tagged(alloc: Global, tag: &Name, answer: Answer) -> Result<Text, NoMemory>
    ensures { IfOk result (λ text. text ≡ spec.tagged tag.now answer) }
{
    let mut out = Text::new(alloc);
    push_tagged(&mut out, tag, answer)?;
    Ok(out)
}
