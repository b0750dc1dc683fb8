//! What is touched: a place, which is a mailbox or the names of a user's mailboxes, and how.
//!
//! An Every has no mailbox (`mailbox_of`) and is no place among the others: whether two touches have a common place
//! (`share_place`) asks first whether one of them is an Every.
ghost use Rattle.std.specs.Prelude.{◌≡◌, option_copied};

use undo_base::{Keys, Name, User};

/// How an item touches a place.
#[derive(Drop)]
pub enum Touch {
    /// Messages of a mailbox, by their keys.
    Keys {
        user: User,
        mailbox: Name,
        keys: Keys,
        writes: bool,
    },
    /// The end of a mailbox, where the item of that number puts new mail.
    Tail {
        user: User,
        mailbox: Name,
        number: u32,
    },
    /// A whole mailbox, and whether there is one of that name.
    Whole {
        user: User,
        mailbox: Name,
        writes: bool,
    },
    /// Which mailboxes a user has.
    Names {
        user: User,
        writes: bool,
    },
    /// All of a user: which mailboxes he has, and each of them.
    Every {
        user: User,
    },
}

impl Touch {
    ghost use Rattle.touch_rules.specs.Commuting.{does_write, is_every, mailbox_of, user_of};

    /// Whose place it is.
    pub fn user(&self) -> User
        ensures { result ≡ user_of self.now }
    {
        match self {
            Touch::Keys { user, .. } => *user,
            Touch::Tail { user, .. } => *user,
            Touch::Whole { user, .. } => *user,
            Touch::Names { user, .. } => *user,
            Touch::Every { user } => *user,
        }
    }

    /// Whether it is of all places of its user.
    pub fn is_every(&self) -> bool
        ensures { result ≡ is_every self.now }
    {
        match self {
            Touch::Keys { .. } => false,
            Touch::Tail { .. } => false,
            Touch::Whole { .. } => false,
            Touch::Names { .. } => false,
            Touch::Every { .. } => true,
        }
    }

    /// The mailbox, where the place is one.
    pub fn mailbox(&self) -> Option<&Name>
        ensures { option_copied result ≡ mailbox_of self.now }
    {
        match self {
            Touch::Keys { mailbox, .. } => Some(mailbox),
            Touch::Tail { mailbox, .. } => Some(mailbox),
            Touch::Whole { mailbox, .. } => Some(mailbox),
            Touch::Names { .. } => None,
            Touch::Every { .. } => None,
        }
    }

    /// Whether the item writes there: one that puts new mail at the end does, and one that touches all of a user.
    pub fn writes(&self) -> bool
        ensures { result ≡ does_write self.now }
    {
        match self {
            Touch::Keys { writes, .. } => *writes,
            Touch::Tail { .. } => true,
            Touch::Whole { writes, .. } => *writes,
            Touch::Names { writes, .. } => *writes,
            Touch::Every { .. } => true,
        }
    }
}
