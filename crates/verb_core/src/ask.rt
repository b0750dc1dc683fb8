//! What users ask of the store, and why it is refused.
//!
//! `SubmitFault` stands here beside `Refused`, since each session takes it and the desk gives it.
//!
//! `HasInferiors` stands last among the refusals' names, and is told by its place in the order: behind NoBox, before TryCreate.
use undo_base::{Flags, How, Keys, Name, Names, NoMemory, Text};

/// What is asked of the store. `strict` is true where the messages were named by sequence number. An EXPUNGE with `only` removes no others than these.
#[derive(Drop)]
pub enum Ask {
    Deliver {
        from: Text,
        to: Names,
        text: Text,
    },
    Append {
        mailbox: Name,
        flags: Flags,
        moment: Option<u64>,
        text: Text,
    },
    Fetch {
        mailbox: Name,
        keys: Keys,
        sets_seen: bool,
        shows_body: bool,
        strict: bool,
        asked: u64,
    },
    Store {
        mailbox: Name,
        keys: Keys,
        how: How,
        flags: Flags,
        strict: bool,
    },
    Copy {
        mailbox: Name,
        keys: Keys,
        target: Name,
        strict: bool,
    },
    List {
        pattern: Text,
    },
    Status {
        mailbox: Name,
    },
    Select {
        mailbox: Name,
    },
    Expunge {
        mailbox: Name,
        only: Option<Keys>,
    },
    Close {
        mailbox: Name,
        removes: bool,
    },
    Create {
        mailbox: Name,
    },
    Rename {
        mailbox: Name,
        target: Name,
    },
    Delete {
        mailbox: Name,
    },
}

/// Why an ask is refused.
#[derive(Clone, Copy, Debug, PartialEq, Eq)]
pub enum Refused {
    NoBox,
    Exists,
    Fixed,
    NameShape,
    TryCreate,
    Gone,
    TooMany { asked: u64 },
    TooLarge { asked: u64 },
    BoxesFull,
    UidWide,
    Numbers { next: u32 },
    NoMemory,
    HasInferiors,
}

impl From<NoMemory> for Refused {
    ghost use Rattle.std.specs.Prelude.{◌≡◌};
    ghost use Rattle.verb_core.specs.declared.ask.Refused.TheVariants.{NoMemory as no_memory};

    ghost from_gives = { λ _ refused. refused ≡ no_memory };

    fn from(_: NoMemory) -> Self {
        Refused::NoMemory
    }
}

/// Why a submitted ask has no item: it is refused, a device call failed, or the log is closed.
#[derive(Clone, Copy, Debug, PartialEq, Eq)]
pub enum SubmitFault {
    Refused(Refused),
    Disk,
    Closed,
}
