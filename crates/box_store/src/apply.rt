//! Effects applied, and items performed.
ghost use Rattle.std.specs.Prelude.{◌≡◌, ◌+◌, [], IfOk, OnOk, OnErr, unwrap_or};
ghost use Rattle.verb_core.specs.Store.{IsValid};
ghost use Rattle.verb_core.specs.Items.{IsWellFormed, text_in};
ghost use Rattle.verb_core.specs.Step.{step};

use crate::work::work_on;
use crate::{Effect, Steps, Store};
use std::alloc::Global;
use std::sync::ledger::Ledger;
use undo_base::NoMemory;
use verb_core::{Item, Shown};

impl Store {
    ghost use Rattle.box_store.specs.Effects.{IsReady, applied, step_text};

    /// Applies an effect, for which there is room, and counts nothing. It takes no memory.
    pub fn apply_alone(&mut self, effect: Effect) -> Shown
        requires { IsReady effect self.old }
        ensures store { self.new.store ≡ applied effect self.old.store }
        ensures shown { result ≡ effect.shown }
    {
        let Effect { work, act, shown } = effect;
        work_on(&mut self.rows, &mut self.spares, work);
        if act.is_some() {
            self.conf.change();
        }
        shown
    }

    /// Applies an effect, for which there is room. It takes no memory.
    pub fn apply<L: Ledger>(&mut self, effect: Effect, steps: &mut Steps<L>) -> Shown
        requires ready { IsReady effect self.old }
        ensures store { self.new.store ≡ applied effect self.old.store }
        ensures shown { result ≡ effect.shown }
        ensures step { steps.new ≡ steps.old + 1 }
    {
        steps.tick();
        self.apply_alone(effect)
    }

    /// Performs one item whose text is given beside it.
    pub fn perform<L: Ledger>(
        &mut self,
        alloc: Global,
        item: &Item,
        text: &[u8],
        steps: &mut Steps<L>,
    ) -> Result<Shown, NoMemory>
        requires valid { IsValid self.old.store }
        requires formed { IsWellFormed self.old.store.house item.now }
        ensures store { OnOk result (self.new.store ≡ (step_text self.old.store item.now text.now).0) }
        ensures shown { IfOk result (λ shown. shown ≡ (step_text self.old.store item.now text.now).1) }
        ensures step { OnOk result (steps.new ≡ steps.old + 1) }
        ensures err { OnErr result (self.new.store ≡ self.old.store) }
        ensures no_step { OnErr result (steps.new ≡ steps.old) }
        ensures own_text { text.now ≡ unwrap_or (text_in item.now.deed) [] → OnOk result (self.new.store ≡ (step self.old.store item.now).0) }
        ensures own_shown { text.now ≡ unwrap_or (text_in item.now.deed) [] → IfOk result (λ shown. shown ≡ (step self.old.store item.now).1) }
    {
        let effect = self.ready_effect(alloc, item, text)?;
        Ok(self.apply(effect, steps))
    }

    /// What an item does now whose text is given beside it.
    fn effect_now(&self, alloc: Global, item: &Item, text: &[u8]) -> Result<Effect, NoMemory>
        requires valid { IsValid self.now.store }
        requires formed { IsWellFormed self.now.store.house item.now }
        ensures store { IfOk result (λ effect. applied effect self.now.store ≡ (step_text self.now.store item.now text.now).0) }
        ensures shown { IfOk result (λ effect. effect.shown ≡ (step_text self.now.store item.now text.now).1) }
    {
        let what = self.aim(alloc, item, text)?;
        let effect = self.effect(alloc, &what);
        drop(what);
        effect
    }

    /// What an item does now whose text is given beside it, with room for it.
    pub fn ready_effect(
        &mut self,
        alloc: Global,
        item: &Item,
        text: &[u8],
    ) -> Result<Effect, NoMemory>
        requires valid { IsValid self.old.store }
        requires formed { IsWellFormed self.old.store.house item.now }
        ensures kept { self.new.store ≡ self.old.store }
        ensures ready { IfOk result (λ effect. IsReady effect self.new) }
        ensures store { IfOk result (λ effect. applied effect self.old.store ≡ (step_text self.old.store item.now text.now).0) }
        ensures shown { IfOk result (λ effect. effect.shown ≡ (step_text self.old.store item.now text.now).1) }
    {
        let effect = self.effect_now(alloc, item, text)?;
        match self.reserve(alloc, &effect) {
            Ok(()) => Ok(effect),
            Err(NoMemory) => {
                drop(effect);
                Err(NoMemory)
            }
        }
    }
}
