//! The messages of a view.
ghost use Rattle.std.specs.Prelude.{◌≡◌, ◌+◌, ◌*◌, min};
ghost use Rattle.imap_fetch.specs.Asked as spec;

use crate::{Attributes, Messages, body_sections};
use verb_core::Entry;

/// A message as it lay before the command: its number in the view, from 1, and how many octets its text has.
#[derive(Clone, Copy, PartialEq, Eq)]
pub struct Message {
    pub place: u32,
    pub entry: Entry,
    pub size: u32,
}

fn add_size(total: u64, message: &Message, sections: usize) -> u64
    ensures { result ≡ min (total + message.now.size * sections) 18446744073709551615 }
{
    total.saturating_add((message.size as u64).saturating_mul(sections as u64))
}

/// How many octets of texts are asked for, or the last u64 where they are more.
#[tactic(auto, unfolding(crate::specs::Asked::octets_asked))]
pub fn octets_asked(rows: &Messages, attributes: &Attributes) -> u64
    ensures { result ≡ spec.octets_asked rows.now attributes.now }
{
    let sections = body_sections(attributes);
    let rows = rows.as_slice();
    let mut total = 0;
    for row in rows {
        total = add_size(total, row, sections);
    }
    total
}
