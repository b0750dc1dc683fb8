//! Records of the journal, and their one spelling.
//!
//! `journal` is what is recorded; `encode` and `decode` write and read it. Below them `part` is what stands in lists; `simple`,
//! `settings`, `mailboxes`, `acts`, `deeds`, `shown`, `items` and `reports` are the parts. `kinds` has the byte that says which
//! record, act or deed follows, and `write` and `cursor` the fields. Of `specs/`, Fields, Spelling, Writing and Decoding say the
//! fields of each record, what is written for it and what bytes are read as; Readers and Reading, how the parts read. `places`
//! tells where the texts of messages lie in a record's bytes, which Places says by the fields before each. `holes` reads a record
//! whose text is not read, by the bytes around it, as Holes says. `laws` says that this
//! is one spelling, and that each text lies at its place. What carries the crate: `spell_record` gives the bytes of the record's
//! fields, or answers that one of them is out of its range. `decode_record` answers the record that the bytes spell, or the place
//! where they are refused. `text_places` answers where its texts lie.
#![tactic(auto)]

mod acts;
mod cursor;
mod decode;
mod deeds;
mod encode;
mod holes;
mod items;
mod journal;
mod kinds;
pub mod laws;
mod mailboxes;
mod part;
mod places;
mod reports;
mod scopes;
mod settings;
mod shown;
mod simple;
mod write;

pub use decode::{BadBytes, decode_record};
pub use encode::{
    encode_record, spell_act, spell_base, spell_cycle, spell_item, spell_kept, spell_record,
    spell_snapshot, spell_text, spell_upgrade, spell_withdraw,
};
pub use holes::{decode_around, hole_at};
pub use journal::{Acts, CycleAsk, JournalRecord, Replaces};
pub use places::{
    TextPlace, TextPlaces, act_text_from, ask_text_places, body_text_from, item_text_from,
    kept_text_from, text_places,
};
pub use write::Unwritten;
