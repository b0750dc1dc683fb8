//! Effects, made on a store.
ghost use Rattle.std.specs.Prelude.{◌≡◌, not, IsTrue, IfOk};
ghost use Rattle.verb_core.specs.declared.item.Deed.TheVariants.{Act as Acts};
ghost use Rattle.verb_core.specs.Items.{IsWellFormed};
ghost use Rattle.verb_core.specs.Names.{is_empty};
ghost use Rattle.verb_core.specs.Step.{conf_after, shown};
ghost use Rattle.verb_core.specs.Boxes.{is_rising};
ghost use Rattle.verb_core.specs.Store.{IsValid};
ghost use Rattle.box_store.specs.Effects.{conf_by};

use crate::plan::work_of;
use crate::{Effect, Store, Work};
use mail_rows::shown::shown_by;
use std::alloc::Global;
use undo_base::{Copies, NoMemory, User};
use verb_core::{Act, BoxId, Deed, Mailbox, Resolved, Shown, actor_of};

/// The act, if it changes the configuration.
fn act_kept(alloc: Global, act: &Act) -> Result<Option<Act>, NoMemory>
    ensures { IfOk result (λ kept. (house conf : _) → conf_by house kept conf ≡ conf_after house (Acts act.now) conf) }
{
    match act {
        Act::Remove { .. } => Ok(None),
        Act::Give { .. } => Ok(None),
        _ => Ok(Some(act.copy(alloc)?)),
    }
}

/// The deed's act, if it changes the configuration.
fn conf_act(alloc: Global, deed: &Deed) -> Result<Option<Act>, NoMemory>
    ensures { IfOk result (λ kept. (house conf : _) → conf_by house kept conf ≡ conf_after house deed.now conf) }
{
    match deed {
        Deed::Act(act) => act_kept(alloc, act),
        _ => Ok(None),
    }
}

/// The deed's act, if it changes the configuration, and what the user is shown.
fn act_and_shown(
    alloc: Global,
    rows: &[(BoxId, Mailbox)],
    redirected: bool,
    user: User,
    deed: &Deed,
) -> Result<(Option<Act>, Shown), NoMemory>
    requires { IsTrue (is_rising rows.now) }
    ensures act { IfOk result (λ both. (house conf : _) → conf_by house both.0 conf ≡ conf_after house deed.now conf) }
    ensures shown { IfOk result (λ both. both.1 ≡ shown redirected user deed.now rows.now) }
{
    let shown = shown_by(alloc, rows, redirected, user, deed)?;
    match conf_act(alloc, deed) {
        Ok(act) => Ok((act, shown)),
        Err(_) => Err(NoMemory),
    }
}

/// Whether a mailbox was looked for and not found.
fn missed_some(what: &Resolved) -> bool
    ensures { result ≡ not (is_empty what.now.missed) }
{
    !what.missed.is_empty()
}

/// The effect of this work, with what else an item does.
fn with_rest(
    alloc: Global,
    rows: &[(BoxId, Mailbox)],
    redirected: bool,
    user: User,
    deed: &Deed,
    work: Work,
) -> Result<Effect, NoMemory>
    requires { IsTrue (is_rising rows.now) }
    ensures work { IfOk result (λ effect. effect.work ≡ work) }
    ensures act { IfOk result (λ effect. (house conf : _) → conf_by house effect.act conf ≡ conf_after house deed.now conf) }
    ensures shown { IfOk result (λ effect. effect.shown ≡ shown redirected user deed.now rows.now) }
{
    match act_and_shown(alloc, rows, redirected, user, deed) {
        Ok((act, shown)) => Ok(Effect { work, act, shown }),
        Err(_) => {
            drop(work);
            Err(NoMemory)
        }
    }
}

impl Store {
    ghost use Rattle.box_store.specs.Effects.{IsAimed, IsEffect};

    /// What an item with these aims does on this store, and what its user is shown.
    pub fn effect(&self, alloc: Global, what: &Resolved) -> Result<Effect, NoMemory>
        requires valid { IsValid self.now.store }
        requires formed { IsWellFormed self.now.store.house what.now.item }
        requires aimed { IsAimed what.now self.now.store }
        ensures { IfOk result (λ effect. IsEffect effect what.now self.now.store) }
    {
        let item = &what.item;
        let rows = self.rows.as_slice();
        let user = actor_of(item);
        let work = work_of(alloc, rows, user, item, &what.aims)?;
        let effect = with_rest(alloc, rows, missed_some(what), user, &item.deed, work)?;
        Ok(effect)
    }
}
