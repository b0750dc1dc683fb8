//! Copies of items, configurations and mailboxes.
//!
//! The copies are of the trait `Copies` of undo_base, which a caller brings into scope. `Rows` is a list type of undo_base, so it
//! can't have a method of this crate.
use crate::copy_deeds::{
    copy_act, copy_append, copy_close, copy_copy, copy_create, copy_delete, copy_deliver,
    copy_drop_alias, copy_drop_filter, copy_expunge, copy_fetch, copy_field, copy_give, copy_list,
    copy_notice, copy_remove, copy_rename, copy_select, copy_set_alias, copy_set_filter,
    copy_status, copy_store,
};
use crate::{
    Account, Act, Aim, Alias, Body, BoxId, Conf, Deed, Entry, Filter, House, Item, Mailbox,
    Resolved, Scope, Shown, Sight,
};
use std::alloc::Global;
use undo_base::{Copies, NoMemory};

impl Copies for Entry {
    fn copy(&self, _alloc: Global) -> Result<Entry, NoMemory> {
        Ok(*self)
    }
}

impl Copies for Sight {
    fn copy(&self, _alloc: Global) -> Result<Sight, NoMemory> {
        Ok(*self)
    }
}

impl Copies for Body {
    fn copy(&self, _alloc: Global) -> Result<Body, NoMemory> {
        Ok(*self)
    }
}

impl Copies for Mailbox {
    fn copy(&self, alloc: Global) -> Result<Mailbox, NoMemory> {
        Ok(Mailbox {
            next: self.next,
            entries: self.entries.copy(alloc)?,
        })
    }
}

impl Copies for BoxId {
    fn copy(&self, alloc: Global) -> Result<BoxId, NoMemory> {
        Ok(BoxId {
            user: self.user,
            name: self.name.copy(alloc)?,
        })
    }
}

impl Copies for Alias {
    fn copy(&self, alloc: Global) -> Result<Alias, NoMemory> {
        Ok(Alias {
            local: self.local.copy(alloc)?,
            users: self.users.copy(alloc)?,
        })
    }
}

impl Copies for Scope {
    fn copy(&self, alloc: Global) -> Result<Scope, NoMemory> {
        match self {
            Scope::Body => Ok(Scope::Body),
            Scope::Field(name) => copy_field(alloc, name),
            Scope::Sender => Ok(Scope::Sender),
            Scope::Recipient => Ok(Scope::Recipient),
        }
    }
}

impl Copies for Filter {
    fn copy(&self, alloc: Global) -> Result<Filter, NoMemory> {
        Ok(Filter {
            id: self.id.copy(alloc)?,
            needle: self.needle.copy(alloc)?,
            file: self.file.copy(alloc)?,
            scope: self.scope.copy(alloc)?,
        })
    }
}

impl Copies for Account {
    fn copy(&self, alloc: Global) -> Result<Account, NoMemory> {
        Ok(Account {
            name: self.name.copy(alloc)?,
            password: self.password.copy(alloc)?,
        })
    }
}

impl Copies for House {
    fn copy(&self, alloc: Global) -> Result<House, NoMemory> {
        Ok(House {
            host: self.host.copy(alloc)?,
            domains: self.domains.copy(alloc)?,
            accounts: self.accounts.copy(alloc)?,
            postmaster: self.postmaster,
            first: self.first,
        })
    }
}

impl Copies for Conf {
    fn copy(&self, alloc: Global) -> Result<Conf, NoMemory> {
        Ok(Conf {
            aliases: self.aliases.copy(alloc)?,
            filters: self.filters.copy(alloc)?,
        })
    }
}

impl Copies for Aim {
    fn copy(&self, alloc: Global) -> Result<Aim, NoMemory> {
        Ok(Aim {
            user: self.user,
            mailbox: self.mailbox.copy(alloc)?,
            index: self.index,
        })
    }
}

impl Copies for Act {
    fn copy(&self, alloc: Global) -> Result<Act, NoMemory> {
        match self {
            Act::SetAlias { local, users } => copy_set_alias(alloc, local, users),
            Act::DropAlias { local } => copy_drop_alias(alloc, local),
            Act::SetFilter(filter) => copy_set_filter(alloc, filter),
            Act::DropFilter { id } => copy_drop_filter(alloc, id),
            Act::Remove { user, mailbox, key } => copy_remove(alloc, *user, mailbox, *key),
            Act::Give {
                user,
                mailbox,
                text,
            } => copy_give(alloc, *user, mailbox, text),
        }
    }
}

impl Copies for Shown {
    fn copy(&self, alloc: Global) -> Result<Shown, NoMemory> {
        match self {
            Shown::Nothing => Ok(Shown::Nothing),
            Shown::Seen(sights) => Ok(Shown::Seen(sights.copy(alloc)?)),
            Shown::Names(names) => Ok(Shown::Names(names.copy(alloc)?)),
            Shown::Count(count) => Ok(Shown::Count(*count)),
            Shown::Done(keys) => Ok(Shown::Done(keys.copy(alloc)?)),
            Shown::Copied { keys, redirected } => Ok(Shown::Copied {
                keys: keys.copy(alloc)?,
                redirected: *redirected,
            }),
            Shown::Put { redirected } => Ok(Shown::Put {
                redirected: *redirected,
            }),
            Shown::Left(keys) => Ok(Shown::Left(keys.copy(alloc)?)),
            Shown::Way(way) => Ok(Shown::Way(*way)),
            Shown::Moved(keys) => Ok(Shown::Moved(keys.copy(alloc)?)),
        }
    }
}

impl Copies for Deed {
    fn copy(&self, alloc: Global) -> Result<Deed, NoMemory> {
        match self {
            Deed::Deliver { from, to, text } => copy_deliver(alloc, from, to, text),
            Deed::Append {
                mailbox,
                flags,
                moment,
                text,
            } => copy_append(alloc, mailbox, *flags, *moment, text),
            Deed::Fetch {
                mailbox,
                keys,
                sets_seen,
                shows_body,
            } => copy_fetch(alloc, mailbox, keys, *sets_seen, *shows_body),
            Deed::Store {
                mailbox,
                keys,
                how,
                flags,
            } => copy_store(alloc, mailbox, keys, *how, *flags),
            Deed::Copy {
                mailbox,
                keys,
                target,
            } => copy_copy(alloc, mailbox, keys, target),
            Deed::List { pattern } => copy_list(alloc, pattern),
            Deed::Status { mailbox } => copy_status(alloc, mailbox),
            Deed::Select { mailbox } => copy_select(alloc, mailbox),
            Deed::Expunge { mailbox, keys } => copy_expunge(alloc, mailbox, keys),
            Deed::Close { mailbox, keys } => copy_close(alloc, mailbox, keys),
            Deed::Create { mailbox } => copy_create(alloc, mailbox),
            Deed::Rename { mailbox, target } => copy_rename(alloc, mailbox, target),
            Deed::Delete { mailbox, keys } => copy_delete(alloc, mailbox, keys),
            Deed::Act(act) => copy_act(alloc, act),
            Deed::Notice { user, text } => copy_notice(alloc, *user, text),
        }
    }
}

impl Copies for Item {
    fn copy(&self, alloc: Global) -> Result<Item, NoMemory> {
        let shown = self.shown.copy(alloc)?;
        match self.deed.copy(alloc) {
            Ok(deed) => Ok(Item {
                number: self.number,
                at: self.at,
                by: self.by,
                rev: self.rev,
                deed,
                shown,
            }),
            Err(NoMemory) => Err(NoMemory),
        }
    }
}

impl Copies for Resolved {
    fn copy(&self, alloc: Global) -> Result<Resolved, NoMemory> {
        let aims = self.aims.copy(alloc)?;
        let missed = self.missed.copy(alloc)?;
        match self.item.copy(alloc) {
            Ok(item) => Ok(Resolved { item, aims, missed }),
            Err(NoMemory) => Err(NoMemory),
        }
    }
}
