//! The texts of deliveries, which are read as they are performed.
ghost use Rattle.std.specs.Prelude.{◌≡◌, IfOk};
ghost use Rattle.verb_core.specs.Texts.{StaysTold};
ghost use Rattle.stored_items.specs.Stored.{needs_text as needs};
ghost use Rattle.replay_crew.specs.Hearing.{CountsTextReads, HoldsOf, StoresOf, heard_as};

use std::alloc::Global;
use stored_items::StoredItem;
use undo_base::Text;
use verb_core::{Bodies, BodiesFault, Deed};

/// Whether performing an item looks at its text: a delivery's filters do.
fn needs_text(item: &StoredItem) -> bool
    ensures { result ≡ needs item.now.deed }
{
    match item.item().deed {
        Deed::Deliver { .. } => true,
        Deed::Append { .. } => false,
        Deed::Fetch { .. } => false,
        Deed::Store { .. } => false,
        Deed::Copy { .. } => false,
        Deed::List { .. } => false,
        Deed::Status { .. } => false,
        Deed::Select { .. } => false,
        Deed::Expunge { .. } => false,
        Deed::Close { .. } => false,
        Deed::Create { .. } => false,
        Deed::Rename { .. } => false,
        Deed::Delete { .. } => false,
        Deed::Act(_) => false,
        Deed::Notice { .. } => false,
    }
}

/// The text that performing an item looks at: a delivery's is read, and for any other item none is asked for.
pub fn text_for<B: Bodies>(
    alloc: Global,
    bodies: &mut B,
    item: &StoredItem,
) -> Result<Text, BodiesFault>
    requires held { HoldsOf (B.told bodies.old) item.now }
    ensures same { (B.told bodies.old).honest → StoresOf (B.told bodies.old) item.now → IfOk result (λ text. heard_as item.now text ≡ item.now) }
    ensures reads { CountsTextReads (B.told bodies.old) (B.told bodies.new) result }
    ensures stays { StaysTold (B.told bodies.old) (B.told bodies.new) }
    ensures leads { B.leads bodies.old bodies.new }
{
    if needs_text(item) {
        bodies.text(alloc, item.body())
    } else {
        Ok(Text::new(alloc))
    }
}

/// Lets an item have the text that was read for it, where performing it looks at one.
#[tactic(auto, using(crate::proofs::Heard::no_notice))]
pub fn hear(item: &mut StoredItem, text: &Text)
    ensures { item.new ≡ heard_as item.old text.now }
{
    if needs_text(item) {
        item.hear(text);
    }
}
