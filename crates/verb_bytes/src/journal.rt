//! What the journal records.
use paradox::Reports;
use undo_base::{Name, Numbers, Sequence, Text};
use verb_core::{Act, Body, Conf, House, Item, Rows, Stamps};

/// Numbers of items, each with its new text.
pub type Replaces = Sequence<(u32, Text)>;

/// Acts, in order.
pub type Acts = Sequence<Act>;

/// What a cycle is asked to do: the items behind `point` that go, those that get another text, and the acts that come in.
#[derive(Drop)]
pub struct CycleAsk {
    pub key: Name,
    pub point: u32,
    pub drops: Numbers,
    pub replaces: Replaces,
    pub inserts: Acts,
}

/// One record. A `Verb` is a user's item, with rev 0; from an `Upgrade` on names may have superiors; a `Withdraw` takes back the
/// cycle of the number `of`. Where the past was cut off, a `Base` is the store before the first item, and the `Text`s are of its
/// messages. Each `Kept` is an item as it was when the past was cut off, whoever did it.
#[derive(Drop)]
pub enum JournalRecord {
    Format(House, Conf),
    Verb(Item),
    Operator {
        number: u32,
        at: u64,
        act: Act,
    },
    Cycle {
        number: u32,
        at: u64,
        ask: CycleAsk,
    },
    Snapshot {
        items: u32,
        conf: Conf,
        rows: Rows,
    },
    Upgrade {
        at: u64,
    },
    Withdraw {
        number: u32,
        at: u64,
        key: Name,
        of: u32,
    },
    Base {
        next: u32,
        deep: bool,
        conf: Conf,
        rows: Rows,
        stamps: Stamps,
        reports: Reports,
    },
    Text {
        body: Body,
        text: Text,
    },
    Kept(Item),
}
