//! What an item does, worked out behind the gate.
ghost use Rattle.std.specs.Prelude.{◌≡◌, IfOk};
ghost use Rattle.verb_core.specs.Items.{IsWellFormed};
ghost use Rattle.verb_core.specs.Store.{IsValid};
ghost use Rattle.box_store.specs.Effects.{IsAimed, IsEffect};

use box_store::{Effect, Store};
use std::alloc::Global;
use undo_base::NoMemory;
use undo_outside::Gate;
use verb_core::Resolved;

/// That the item of a number has passed the gate.
#[derive(Drop)]
pub(crate) struct Passed {
    number: u32,
}

impl Passed {
    /// Passes the gate. Nothing else makes one.
    pub(crate) fn through<G: Gate>(gate: &G, number: u32) -> Passed
        ensures { result.number ≡ number }
    {
        gate.pass(number);
        Passed { number }
    }
}

/// What the item at a place does.
#[derive(Drop)]
pub(crate) struct Made {
    place: u32,
    effect: Effect,
}

impl Made {
    /// What the item at a place does on a store. It takes that this item has passed the gate, and nothing else makes one: so
    /// no item is worked out before it has passed.
    pub(crate) fn behind(
        passed: Passed,
        alloc: Global,
        store: &Store,
        what: &Resolved,
        place: u32,
    ) -> Result<Made, NoMemory>
        requires passed { passed.number ≡ what.now.item.number }
        requires valid { IsValid store.now.store }
        requires aimed { IsWellFormed store.now.store.house what.now.item × IsAimed what.now store.now.store }
        ensures place { IfOk result (λ made. made.place ≡ place) }
        ensures made { IfOk result (λ made. IsEffect made.effect what.now store.now.store) }
    {
        let effect = store.effect(alloc, what)?;
        Ok(Made { place, effect })
    }

    /// The place, and what is to be done.
    pub(crate) fn parts(self) -> (u32, Effect)
        ensures { result ≡ (self.place, self.effect) }
    {
        let Made { place, effect } = self;
        (place, effect)
    }
}
