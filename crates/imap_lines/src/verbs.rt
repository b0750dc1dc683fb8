//! The words of commands.
//!
//! `UID FOO`, `UID NOOP` and `UID` alone are unknown: the words of the UID forms are two, with one space between them.
ghost use Rattle.std.specs.Prelude.{◌≡◌, option_map};
ghost use Rattle.imap_lines.specs.Verbs as spec;

use imap_tokens::is_same_word;

/// Commands without arguments.
#[derive(Clone, Copy)]
pub enum BareVerb {
    Capability,
    Noop,
    Logout,
    Check,
    Close,
    Expunge,
}

/// Commands whose argument is a mailbox.
#[derive(Clone, Copy)]
pub enum MailboxVerb {
    Select,
    Examine,
    Create,
    Delete,
    Subscribe,
    Unsubscribe,
}

/// What a command begins with.
#[derive(Clone, Copy)]
pub enum Verb {
    Bare(BareVerb),
    Mailbox(MailboxVerb),
    Login,
    Rename,
    List,
    Lsub,
    Status,
    Append,
    Fetch,
    Store,
    Copy,
    Search,
    Authenticate,
}

fn bare_verb(word: &[u8]) -> Option<BareVerb>
    ensures { result ≡ spec.bare_verb word.now }
{
    if is_same_word(word, b"CAPABILITY") {
        return Some(BareVerb::Capability);
    }
    if is_same_word(word, b"NOOP") {
        return Some(BareVerb::Noop);
    }
    if is_same_word(word, b"LOGOUT") {
        return Some(BareVerb::Logout);
    }
    if is_same_word(word, b"CHECK") {
        return Some(BareVerb::Check);
    }
    if is_same_word(word, b"CLOSE") {
        return Some(BareVerb::Close);
    }
    if is_same_word(word, b"EXPUNGE") {
        return Some(BareVerb::Expunge);
    }
    None
}

fn mailbox_verb(word: &[u8]) -> Option<MailboxVerb>
    ensures { result ≡ spec.mailbox_verb word.now }
{
    if is_same_word(word, b"SELECT") {
        return Some(MailboxVerb::Select);
    }
    if is_same_word(word, b"EXAMINE") {
        return Some(MailboxVerb::Examine);
    }
    if is_same_word(word, b"CREATE") {
        return Some(MailboxVerb::Create);
    }
    if is_same_word(word, b"DELETE") {
        return Some(MailboxVerb::Delete);
    }
    if is_same_word(word, b"SUBSCRIBE") {
        return Some(MailboxVerb::Subscribe);
    }
    if is_same_word(word, b"UNSUBSCRIBE") {
        return Some(MailboxVerb::Unsubscribe);
    }
    None
}

fn other_verb(word: &[u8]) -> Option<Verb>
    ensures { result ≡ spec.other_verb word.now }
{
    if is_same_word(word, b"LOGIN") {
        return Some(Verb::Login);
    }
    if is_same_word(word, b"RENAME") {
        return Some(Verb::Rename);
    }
    if is_same_word(word, b"LIST") {
        return Some(Verb::List);
    }
    if is_same_word(word, b"LSUB") {
        return Some(Verb::Lsub);
    }
    if is_same_word(word, b"STATUS") {
        return Some(Verb::Status);
    }
    if is_same_word(word, b"APPEND") {
        return Some(Verb::Append);
    }
    if is_same_word(word, b"AUTHENTICATE") {
        return Some(Verb::Authenticate);
    }
    None
}

/// A command that has a form with UIDs.
pub fn message_verb(word: &[u8]) -> Option<Verb>
    ensures { result ≡ spec.message_verb word.now }
{
    if is_same_word(word, b"FETCH") {
        return Some(Verb::Fetch);
    }
    if is_same_word(word, b"STORE") {
        return Some(Verb::Store);
    }
    if is_same_word(word, b"COPY") {
        return Some(Verb::Copy);
    }
    if is_same_word(word, b"SEARCH") {
        return Some(Verb::Search);
    }
    None
}

/// The command of a word.
pub fn read_verb(word: &[u8]) -> Option<Verb>
    ensures { result ≡ spec.verb_in word.now }
{
    if let Some(verb) = bare_verb(word) {
        return Some(Verb::Bare(verb));
    }
    if let Some(verb) = mailbox_verb(word) {
        return Some(Verb::Mailbox(verb));
    }
    if let Some(verb) = other_verb(word) {
        return Some(verb);
    }
    message_verb(word)
}
