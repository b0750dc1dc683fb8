//! Deeds and acts made of copies of their parts: one function for each kind.
ghost use Rattle.std.specs.Prelude.{◌≡◌, IfOk};
ghost use Rattle.verb_core.specs.declared.conf.Scope.TheVariants as scopes;
ghost use Rattle.verb_core.specs.declared.item.Act.TheVariants as acts;
ghost use Rattle.verb_core.specs.declared.item.Deed.TheVariants as deeds;

use crate::{Act, Deed, Filter, Scope};
use std::alloc::Global;
use undo_base::{Copies, Flags, How, Key, Keys, Name, Names, NoMemory, Text, User, Users};

pub(crate) fn copy_set_alias(alloc: Global, local: &Name, users: &Users) -> Result<Act, NoMemory>
    ensures { IfOk result (λ copy. copy ≡ acts.SetAlias local.now users.now) }
{
    Ok(Act::SetAlias {
        local: local.copy(alloc)?,
        users: users.copy(alloc)?,
    })
}

pub(crate) fn copy_drop_alias(alloc: Global, local: &Name) -> Result<Act, NoMemory>
    ensures { IfOk result (λ copy. copy ≡ acts.DropAlias local.now) }
{
    Ok(Act::DropAlias {
        local: local.copy(alloc)?,
    })
}

pub(crate) fn copy_field(alloc: Global, name: &Name) -> Result<Scope, NoMemory>
    ensures { IfOk result (λ copy. copy ≡ scopes.Field name.now) }
{
    Ok(Scope::Field(name.copy(alloc)?))
}

pub(crate) fn copy_set_filter(alloc: Global, filter: &Filter) -> Result<Act, NoMemory>
    ensures { IfOk result (λ copy. copy ≡ acts.SetFilter filter.now) }
{
    Ok(Act::SetFilter(filter.copy(alloc)?))
}

pub(crate) fn copy_drop_filter(alloc: Global, id: &Name) -> Result<Act, NoMemory>
    ensures { IfOk result (λ copy. copy ≡ acts.DropFilter id.now) }
{
    Ok(Act::DropFilter {
        id: id.copy(alloc)?,
    })
}

pub(crate) fn copy_remove(
    alloc: Global,
    user: User,
    mailbox: &Name,
    key: Key,
) -> Result<Act, NoMemory>
    ensures { IfOk result (λ copy. copy ≡ acts.Remove user mailbox.now key) }
{
    Ok(Act::Remove {
        user,
        mailbox: mailbox.copy(alloc)?,
        key,
    })
}

pub(crate) fn copy_give(
    alloc: Global,
    user: User,
    mailbox: &Name,
    text: &Text,
) -> Result<Act, NoMemory>
    ensures { IfOk result (λ copy. copy ≡ acts.Give user mailbox.now text.now) }
{
    Ok(Act::Give {
        user,
        mailbox: mailbox.copy(alloc)?,
        text: text.copy(alloc)?,
    })
}

pub(crate) fn copy_deliver(
    alloc: Global,
    from: &Text,
    to: &Names,
    text: &Text,
) -> Result<Deed, NoMemory>
    ensures { IfOk result (λ copy. copy ≡ deeds.Deliver from.now to.now text.now) }
{
    Ok(Deed::Deliver {
        from: from.copy(alloc)?,
        to: to.copy(alloc)?,
        text: text.copy(alloc)?,
    })
}

pub(crate) fn copy_append(
    alloc: Global,
    mailbox: &Name,
    flags: Flags,
    moment: u64,
    text: &Text,
) -> Result<Deed, NoMemory>
    ensures { IfOk result (λ copy. copy ≡ deeds.Append mailbox.now flags moment text.now) }
{
    Ok(Deed::Append {
        mailbox: mailbox.copy(alloc)?,
        flags,
        moment,
        text: text.copy(alloc)?,
    })
}

pub(crate) fn copy_fetch(
    alloc: Global,
    mailbox: &Name,
    keys: &Keys,
    sets_seen: bool,
    shows_body: bool,
) -> Result<Deed, NoMemory>
    ensures { IfOk result (λ copy. copy ≡ deeds.Fetch mailbox.now keys.now sets_seen shows_body) }
{
    Ok(Deed::Fetch {
        mailbox: mailbox.copy(alloc)?,
        keys: keys.copy(alloc)?,
        sets_seen,
        shows_body,
    })
}

pub(crate) fn copy_store(
    alloc: Global,
    mailbox: &Name,
    keys: &Keys,
    how: How,
    flags: Flags,
) -> Result<Deed, NoMemory>
    ensures { IfOk result (λ copy. copy ≡ deeds.Store mailbox.now keys.now how flags) }
{
    Ok(Deed::Store {
        mailbox: mailbox.copy(alloc)?,
        keys: keys.copy(alloc)?,
        how,
        flags,
    })
}

pub(crate) fn copy_copy(
    alloc: Global,
    mailbox: &Name,
    keys: &Keys,
    target: &Name,
) -> Result<Deed, NoMemory>
    ensures { IfOk result (λ copy. copy ≡ deeds.Copy mailbox.now keys.now target.now) }
{
    Ok(Deed::Copy {
        mailbox: mailbox.copy(alloc)?,
        keys: keys.copy(alloc)?,
        target: target.copy(alloc)?,
    })
}

pub(crate) fn copy_list(alloc: Global, pattern: &Text) -> Result<Deed, NoMemory>
    ensures { IfOk result (λ copy. copy ≡ deeds.List pattern.now) }
{
    Ok(Deed::List {
        pattern: pattern.copy(alloc)?,
    })
}

pub(crate) fn copy_status(alloc: Global, mailbox: &Name) -> Result<Deed, NoMemory>
    ensures { IfOk result (λ copy. copy ≡ deeds.Status mailbox.now) }
{
    Ok(Deed::Status {
        mailbox: mailbox.copy(alloc)?,
    })
}

pub(crate) fn copy_select(alloc: Global, mailbox: &Name) -> Result<Deed, NoMemory>
    ensures { IfOk result (λ copy. copy ≡ deeds.Select mailbox.now) }
{
    Ok(Deed::Select {
        mailbox: mailbox.copy(alloc)?,
    })
}

pub(crate) fn copy_expunge(alloc: Global, mailbox: &Name, keys: &Keys) -> Result<Deed, NoMemory>
    ensures { IfOk result (λ copy. copy ≡ deeds.Expunge mailbox.now keys.now) }
{
    Ok(Deed::Expunge {
        mailbox: mailbox.copy(alloc)?,
        keys: keys.copy(alloc)?,
    })
}

pub(crate) fn copy_close(alloc: Global, mailbox: &Name, keys: &Keys) -> Result<Deed, NoMemory>
    ensures { IfOk result (λ copy. copy ≡ deeds.Close mailbox.now keys.now) }
{
    Ok(Deed::Close {
        mailbox: mailbox.copy(alloc)?,
        keys: keys.copy(alloc)?,
    })
}

pub(crate) fn copy_create(alloc: Global, mailbox: &Name) -> Result<Deed, NoMemory>
    ensures { IfOk result (λ copy. copy ≡ deeds.Create mailbox.now) }
{
    Ok(Deed::Create {
        mailbox: mailbox.copy(alloc)?,
    })
}

pub(crate) fn copy_rename(alloc: Global, mailbox: &Name, target: &Name) -> Result<Deed, NoMemory>
    ensures { IfOk result (λ copy. copy ≡ deeds.Rename mailbox.now target.now) }
{
    Ok(Deed::Rename {
        mailbox: mailbox.copy(alloc)?,
        target: target.copy(alloc)?,
    })
}

pub(crate) fn copy_delete(alloc: Global, mailbox: &Name, keys: &Keys) -> Result<Deed, NoMemory>
    ensures { IfOk result (λ copy. copy ≡ deeds.Delete mailbox.now keys.now) }
{
    Ok(Deed::Delete {
        mailbox: mailbox.copy(alloc)?,
        keys: keys.copy(alloc)?,
    })
}

pub(crate) fn copy_notice(alloc: Global, user: User, text: &Text) -> Result<Deed, NoMemory>
    ensures { IfOk result (λ copy. copy ≡ deeds.Notice user text.now) }
{
    Ok(Deed::Notice {
        user,
        text: text.copy(alloc)?,
    })
}

pub(crate) fn copy_act(alloc: Global, act: &Act) -> Result<Deed, NoMemory>
    ensures { IfOk result (λ copy. copy ≡ deeds.Act act.now) }
{
    Ok(Deed::Act(act.copy(alloc)?))
}
