//! The state of a dialog.
use crate::words::Word;
use imap_fetch::{FetchForm, Messages, StoreForm};
use imap_view::View;
use search_verb::Search;
use undo_base::{Keys, Name, StatusAsks, Texts, Uids, User};

/// The selected mailbox, what is known of it, and whether it can be changed.
#[derive(Drop)]
pub struct Selected {
    pub mailbox: Name,
    pub view: View,
    pub writes: bool,
}

/// A FETCH: its mailbox, the keys of the messages that it names, how many octets of texts it asks for, how it is told,
/// and those messages that are still there.
#[derive(Drop)]
pub struct Fetching {
    pub mailbox: Name,
    pub keys: Keys,
    pub octets: u64,
    pub form: FetchForm,
    pub rows: Messages,
}

/// A SEARCH: its mailbox, what it asks, whether UIDs are told, the view's last place and UID, and the messages of the view that
/// are still there.
#[derive(Drop)]
pub struct Searching {
    pub mailbox: Name,
    pub key: Search,
    pub by_uid: bool,
    pub last_place: u32,
    pub last_uid: u64,
    pub rows: Messages,
}

/// What needs texts.
#[derive(Drop)]
pub enum Wanted {
    Fetch(Fetching),
    Search(Searching),
}

/// What is to be said once the store has done what was asked.
#[derive(Drop)]
pub enum Pending {
    /// A mailbox is selected.
    Select {
        mailbox: Name,
        writes: bool,
    },
    /// These messages are told of, with their texts.
    Fetch {
        form: FetchForm,
        rows: Messages,
        texts: Texts,
    },
    /// These places or UIDs are told.
    Search {
        by_uid: bool,
        numbers: Uids,
    },
    /// These messages' new flags are told, unless it is silent.
    Store {
        form: StoreForm,
        silent: bool,
        rows: Messages,
    },
    /// No more than that it is done.
    Plain {
        word: Word,
    },
    /// A mailbox's name may be taken away: where it is the selected one, none is selected any more.
    Leave {
        word: Word,
    },
    /// No mailbox is selected any more.
    Close,
    /// The names are told, which may have superiors or not.
    List {
        subscribed: bool,
        deep: bool,
    },
    /// A mailbox is told of.
    Status {
        mailbox: Name,
        asked: StatusAsks,
    },
    /// The view follows the mailbox.
    Follow {
        word: Word,
    },
}

/// What is awaited, for the command of a tag.
#[derive(Drop)]
pub enum Awaits {
    Nothing,
    /// The texts that a FETCH or a SEARCH needs.
    Texts { tag: Name, wanted: Wanted },
    /// The outcome of what was asked of the store.
    Outcome { tag: Name, pending: Pending },
}

/// Who is logged in, the selected mailbox, and what is awaited.
#[derive(Drop)]
pub struct Dialog {
    pub user: Option<User>,
    pub selected: Option<Selected>,
    pub awaits: Awaits,
}
