//! The commands.
use crate::FetchAsks;
use imap_stream::SetText;
use search_verb::Search;
use undo_base::{Flags, How, Name, NoMemory, StatusAsks, Text};

/// What a client asks (RFC 3501, section 6). A mailbox is a text, since it may be no name.
#[derive(Drop)]
pub enum ImapWhat {
    Capability,
    Noop,
    Logout,
    Login {
        user: Text,
        password: Text,
    },
    Select {
        mailbox: Text,
    },
    Examine {
        mailbox: Text,
    },
    Create {
        mailbox: Text,
    },
    Delete {
        mailbox: Text,
    },
    Rename {
        mailbox: Text,
        target: Text,
    },
    Subscribe {
        mailbox: Text,
    },
    Unsubscribe {
        mailbox: Text,
    },
    List {
        reference: Text,
        pattern: Text,
    },
    Lsub {
        reference: Text,
        pattern: Text,
    },
    Status {
        mailbox: Text,
        asked: StatusAsks,
    },
    Append {
        mailbox: Text,
        flags: Flags,
        /// Seconds since 1970 in UTC.
        moment: Option<u64>,
        text: Text,
    },
    Check,
    Close,
    Expunge,
    Fetch {
        set: SetText,
        asked: FetchAsks,
        by_uid: bool,
    },
    Store {
        set: SetText,
        how: How,
        silent: bool,
        flags: Flags,
        by_uid: bool,
    },
    Copy {
        set: SetText,
        target: Text,
        by_uid: bool,
    },
    Search {
        charset: Option<Text>,
        key: Search,
        by_uid: bool,
    },
    /// With any arguments; it is not offered.
    Authenticate,
}

/// A command with its tag.
#[derive(Drop)]
pub struct ImapCommand {
    pub tag: Name,
    pub what: ImapWhat,
}

/// Why lines are no command; the first that holds.
#[derive(Drop)]
pub enum ImapRefused {
    /// The line does not begin with a tag and a space.
    NoTag,
    /// The word is none of the commands'.
    Unknown { tag: Name },
    /// The arguments are not in the grammar.
    Argument { tag: Name },
    NoMemory,
}

impl From<NoMemory> for ImapRefused {
    ghost use Rattle.std.specs.Prelude.{◌≡◌};
    ghost use Rattle.imap_lines.specs.declared.command.ImapRefused.TheVariants.{NoMemory as no_memory};

    ghost from_gives = { λ _ refused. refused ≡ no_memory };

    fn from(_: NoMemory) -> Self {
        ImapRefused::NoMemory
    }
}
