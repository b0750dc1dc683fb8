//! Verbs and reasons.
//!
//! A deed's word, mailbox and text are told by verb_core alone. The thirteen verbs of users are an enum, since a report names
//! one, and a law says that the words agree.
//!
//! `Verb::word` and `Reason::text` are public, as is `user_name` of letters, since the console's report says the same words.
ghost use Rattle.std.specs.Prelude.{◌≡◌};
ghost use Rattle.paradox.specs.Words.{verb_word, reason_text, verb_of};

use verb_core::Deed;

/// What users do.
#[derive(Clone, Copy, PartialEq, Eq)]
pub enum Verb {
    Deliver,
    Append,
    Fetch,
    Store,
    Copy,
    List,
    Status,
    Select,
    Expunge,
    Close,
    Create,
    Rename,
    Delete,
}

/// Why what a user was shown no longer holds.
#[derive(Clone, Copy, PartialEq, Eq)]
pub enum Reason {
    Missing,
    Changed,
    NoName,
    Fewer,
    Redirected,
    Left,
    Renamed,
    Moved,
    Withdrawn,
}

impl Verb {
    /// The verb of a deed: the operator's acts and notices are no verbs.
    pub fn of(deed: &Deed) -> Option<Verb>
        ensures { result ≡ verb_of deed.now }
    {
        match deed {
            Deed::Deliver { .. } => Some(Verb::Deliver),
            Deed::Append { .. } => Some(Verb::Append),
            Deed::Fetch { .. } => Some(Verb::Fetch),
            Deed::Store { .. } => Some(Verb::Store),
            Deed::Copy { .. } => Some(Verb::Copy),
            Deed::List { .. } => Some(Verb::List),
            Deed::Status { .. } => Some(Verb::Status),
            Deed::Select { .. } => Some(Verb::Select),
            Deed::Expunge { .. } => Some(Verb::Expunge),
            Deed::Close { .. } => Some(Verb::Close),
            Deed::Create { .. } => Some(Verb::Create),
            Deed::Rename { .. } => Some(Verb::Rename),
            Deed::Delete { .. } => Some(Verb::Delete),
            Deed::Act(_) => None,
            Deed::Notice { .. } => None,
        }
    }

    /// Its word, in capitals.
    pub fn word(self) -> &'static str
        ensures { result.now ≡ verb_word self }
    {
        match self {
            Verb::Deliver => "DELIVER",
            Verb::Append => "APPEND",
            Verb::Fetch => "FETCH",
            Verb::Store => "STORE",
            Verb::Copy => "COPY",
            Verb::List => "LIST",
            Verb::Status => "STATUS",
            Verb::Select => "SELECT",
            Verb::Expunge => "EXPUNGE",
            Verb::Close => "CLOSE",
            Verb::Create => "CREATE",
            Verb::Rename => "RENAME",
            Verb::Delete => "DELETE",
        }
    }
}

impl Reason {
    /// What a notice and a report say of it.
    pub fn text(self) -> &'static str
        ensures { result.now ≡ reason_text self }
    {
        match self {
            Reason::Missing => "a message is missing",
            Reason::Changed => "a message was changed",
            Reason::NoName => "a mailbox is missing",
            Reason::Fewer => "fewer messages",
            Reason::Redirected => "the mail went to Lost+Found",
            Reason::Left => "a message was kept",
            Reason::Renamed => "the mailbox was not renamed",
            Reason::Moved => "mail that you had not seen was kept",
            Reason::Withdrawn => "withdrawn by the operator",
        }
    }
}
