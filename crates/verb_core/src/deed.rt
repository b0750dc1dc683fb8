//! What a deed has: its word, its mailbox and its text; and the item of an act.
ghost use Rattle.std.specs.Prelude.{◌≡◌, [], unwrap_or, IfOk, option_copied};
ghost use Rattle.verb_core.specs.declared.item.Deed.TheVariants as deeds;
ghost use Rattle.verb_core.specs.Items.{is_own as owns, text_in};
ghost use Rattle.verb_core.specs.Deeds.{act_item, act_mailbox, act_word, deed_word, is_notice as tells, mailbox_in, same_body, with_text as with_other};

use crate::copy_deeds::{copy_append, copy_deliver, copy_give, copy_notice};
use crate::{Act, Body, Deed, Item, Shown};
use std::alloc::Global;
use undo_base::{Copies, Name, NoMemory, Text};

impl Body {
    /// Whether both name the same text.
    pub fn is_same(self, other: Body) -> bool
        ensures { result ≡ same_body self other }
    {
        self.origin == other.origin && self.rev == other.rev
    }
}

impl Act {
    /// Its word, in capitals.
    pub fn word(&self) -> &'static str
        ensures { result.now ≡ act_word self.now }
    {
        match self {
            Act::SetAlias { .. } => "ALIAS",
            Act::DropAlias { .. } => "UNALIAS",
            Act::SetFilter(_) => "FILTER",
            Act::DropFilter { .. } => "UNFILTER",
            Act::Remove { .. } => "REMOVE",
            Act::Give { .. } => "GIVE",
        }
    }

    /// The mailbox that it names.
    pub fn mailbox(&self) -> Option<&Name>
        ensures { option_copied result ≡ act_mailbox self.now }
    {
        match self {
            Act::SetAlias { .. } => None,
            Act::DropAlias { .. } => None,
            Act::SetFilter(_) => None,
            Act::DropFilter { .. } => None,
            Act::Remove { mailbox, .. } => Some(mailbox),
            Act::Give { mailbox, .. } => Some(mailbox),
        }
    }

    /// The text that it brings.
    pub fn text(&self) -> Option<&Text>
        ensures { option_copied result ≡ text_in (deeds.Act self.now) }
    {
        match self {
            Act::SetAlias { .. } => None,
            Act::DropAlias { .. } => None,
            Act::SetFilter(_) => None,
            Act::DropFilter { .. } => None,
            Act::Remove { .. } => None,
            Act::Give { text, .. } => Some(text),
        }
    }
}

/// A copy of an act, with another text where it has one.
fn act_with_text(alloc: Global, act: &Act, text: &Text) -> Result<Act, NoMemory>
    ensures { IfOk result (λ copy. deeds.Act copy ≡ with_other text.now (deeds.Act act.now)) }
{
    match act {
        Act::Give { user, mailbox, .. } => copy_give(alloc, *user, mailbox, text),
        Act::SetAlias { .. } => act.copy(alloc),
        Act::DropAlias { .. } => act.copy(alloc),
        Act::SetFilter(_) => act.copy(alloc),
        Act::DropFilter { .. } => act.copy(alloc),
        Act::Remove { .. } => act.copy(alloc),
    }
}

impl Deed {
    /// Its word, in capitals.
    pub fn word(&self) -> &'static str
        ensures { result.now ≡ deed_word self.now }
    {
        match self {
            Deed::Deliver { .. } => "DELIVER",
            Deed::Append { .. } => "APPEND",
            Deed::Fetch { .. } => "FETCH",
            Deed::Store { .. } => "STORE",
            Deed::Copy { .. } => "COPY",
            Deed::List { .. } => "LIST",
            Deed::Status { .. } => "STATUS",
            Deed::Select { .. } => "SELECT",
            Deed::Expunge { .. } => "EXPUNGE",
            Deed::Close { .. } => "CLOSE",
            Deed::Create { .. } => "CREATE",
            Deed::Rename { .. } => "RENAME",
            Deed::Delete { .. } => "DELETE",
            Deed::Act(act) => act.word(),
            Deed::Notice { .. } => "NOTICE",
        }
    }

    /// The mailbox that it names first.
    pub fn mailbox(&self) -> Option<&Name>
        ensures { option_copied result ≡ mailbox_in self.now }
    {
        match self {
            Deed::Deliver { .. } => None,
            Deed::Append { mailbox, .. } => Some(mailbox),
            Deed::Fetch { mailbox, .. } => Some(mailbox),
            Deed::Store { mailbox, .. } => Some(mailbox),
            Deed::Copy { mailbox, .. } => Some(mailbox),
            Deed::List { .. } => None,
            Deed::Status { mailbox } => Some(mailbox),
            Deed::Select { mailbox } => Some(mailbox),
            Deed::Expunge { mailbox, .. } => Some(mailbox),
            Deed::Close { mailbox, .. } => Some(mailbox),
            Deed::Create { mailbox } => Some(mailbox),
            Deed::Rename { mailbox, .. } => Some(mailbox),
            Deed::Delete { mailbox, .. } => Some(mailbox),
            Deed::Act(act) => act.mailbox(),
            Deed::Notice { .. } => None,
        }
    }

    /// The text that it brings.
    pub fn text(&self) -> Option<&Text>
        ensures { option_copied result ≡ text_in self.now }
    {
        match self {
            Deed::Deliver { text, .. } => Some(text),
            Deed::Append { text, .. } => Some(text),
            Deed::Notice { text, .. } => Some(text),
            Deed::Act(act) => act.text(),
            Deed::Fetch { .. } => None,
            Deed::Store { .. } => None,
            Deed::Copy { .. } => None,
            Deed::List { .. } => None,
            Deed::Status { .. } => None,
            Deed::Select { .. } => None,
            Deed::Expunge { .. } => None,
            Deed::Close { .. } => None,
            Deed::Create { .. } => None,
            Deed::Rename { .. } => None,
            Deed::Delete { .. } => None,
        }
    }

    /// The bytes of the text that it brings, none where it brings none.
    pub fn text_bytes(&self) -> &[u8]
        ensures { result.now ≡ unwrap_or (text_in self.now) [] }
    {
        match self.text() {
            Some(text) => text.bytes(),
            None => &[],
        }
    }

    /// Whether it is a notice.
    #[tactic(auto, unfolding(crate::specs::Deeds::is_notice))]
    pub fn is_notice(&self) -> bool
        ensures { result ≡ tells self.now }
    {
        match self {
            Deed::Notice { .. } => true,
            Deed::Deliver { .. } => false,
            Deed::Append { .. } => false,
            Deed::Fetch { .. } => false,
            Deed::Store { .. } => false,
            Deed::Copy { .. } => false,
            Deed::List { .. } => false,
            Deed::Status { .. } => false,
            Deed::Select { .. } => false,
            Deed::Expunge { .. } => false,
            Deed::Close { .. } => false,
            Deed::Create { .. } => false,
            Deed::Rename { .. } => false,
            Deed::Delete { .. } => false,
            Deed::Act(_) => false,
        }
    }

    /// Whether it is a user's own.
    pub fn is_own(&self) -> bool
        ensures { result ≡ owns self.now }
    {
        match self {
            Deed::Deliver { .. } => false,
            Deed::Act(_) => false,
            Deed::Notice { .. } => false,
            Deed::Append { .. } => true,
            Deed::Fetch { .. } => true,
            Deed::Store { .. } => true,
            Deed::Copy { .. } => true,
            Deed::List { .. } => true,
            Deed::Status { .. } => true,
            Deed::Select { .. } => true,
            Deed::Expunge { .. } => true,
            Deed::Close { .. } => true,
            Deed::Create { .. } => true,
            Deed::Rename { .. } => true,
            Deed::Delete { .. } => true,
        }
    }

    /// A copy with another text, where it has one.
    pub fn with_text(&self, alloc: Global, text: &Text) -> Result<Deed, NoMemory>
        ensures { IfOk result (λ copy. copy ≡ with_other text.now self.now) }
    {
        match self {
            Deed::Deliver { from, to, .. } => copy_deliver(alloc, from, to, text),
            Deed::Append {
                mailbox,
                flags,
                moment,
                ..
            } => copy_append(alloc, mailbox, *flags, *moment, text),
            Deed::Act(act) => match act_with_text(alloc, act, text) {
                Ok(act) => Ok(Deed::Act(act)),
                Err(NoMemory) => Err(NoMemory),
            },
            Deed::Notice { user, .. } => copy_notice(alloc, *user, text),
            Deed::Fetch { .. } => self.copy(alloc),
            Deed::Store { .. } => self.copy(alloc),
            Deed::Copy { .. } => self.copy(alloc),
            Deed::List { .. } => self.copy(alloc),
            Deed::Status { .. } => self.copy(alloc),
            Deed::Select { .. } => self.copy(alloc),
            Deed::Expunge { .. } => self.copy(alloc),
            Deed::Close { .. } => self.copy(alloc),
            Deed::Create { .. } => self.copy(alloc),
            Deed::Rename { .. } => self.copy(alloc),
            Deed::Delete { .. } => self.copy(alloc),
        }
    }
}

impl Item {
    /// The item of an act.
    pub fn of_act(alloc: Global, number: u32, at: u64, act: &Act) -> Result<Item, NoMemory>
        ensures { IfOk result (λ item. item ≡ act_item number at act.now) }
    {
        Ok(Item {
            number,
            at,
            by: None,
            rev: 0,
            deed: Deed::Act(act.copy(alloc)?),
            shown: Shown::Nothing,
        })
    }
}
