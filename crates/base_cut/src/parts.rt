//! What a cut is made of.
use undo_base::{Sequence, Text};
use verb_core::{Body, Items};

/// Bodies, in order.
pub type BodyList = Sequence<Body>;

/// The payloads of the Format and of the Base, the bodies whose texts come with the base, and the later items, without their
/// texts.
#[derive(Drop)]
pub struct CutParts {
    pub head: Text,
    pub base: Text,
    pub bodies: BodyList,
    pub kept: Items,
}
