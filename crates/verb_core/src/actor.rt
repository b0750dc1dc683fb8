//! Who acts, and whose mailboxes an item acts on.
ghost use Rattle.std.specs.Prelude.{◌≡◌, unwrap_or};
ghost use Rattle.verb_core.specs.declared.item.Deed.TheVariants.{Act as Acts};
ghost use Rattle.verb_core.specs.Items.{actor};

use crate::{Act, Deed, Item};
use undo_base::User;

/// Whoever acts; where nobody does, user 0, whom every house has.
pub fn who_acts(by: Option<User>) -> User
    ensures { result ≡ unwrap_or by (record { 0 = 0 }) }
{
    match by {
        Some(user) => user,
        None => User(0),
    }
}

/// Whose mailboxes an act is about, where it is about a user's; else whoever acts.
fn actor_of_act(by: Option<User>, act: &Act) -> User
    ensures { result ≡ actor by (Acts act.now) }
{
    match act {
        Act::Remove { user, .. } => *user,
        Act::Give { user, .. } => *user,
        Act::SetAlias { .. } => who_acts(by),
        Act::DropAlias { .. } => who_acts(by),
        Act::SetFilter(_) => who_acts(by),
        Act::DropFilter { .. } => who_acts(by),
    }
}

/// Whose mailboxes an item acts on.
pub fn actor_of(item: &Item) -> User
    ensures { result ≡ actor item.now.by item.now.deed }
{
    match &item.deed {
        Deed::Act(act) => actor_of_act(item.by, act),
        Deed::Notice { user, .. } => *user,
        _ => who_acts(item.by),
    }
}
