//! The store and what it tells.
ghost use Rattle.std.specs.Prelude.{◌≡◌, [], IsTrue, IfOk, option_copied};
ghost use Rattle.std.specs.List.{list_all};
ghost use Rattle.verb_core.specs.Store.{MailStore, IsValid, is_house, is_known, opening};
ghost use Rattle.verb_core.specs.Boxes.{box_of, has_inferior as has_below, row_at, names_of};
ghost use Rattle.verb_core.specs.Items.{IsWellFormed};
ghost use Rattle.verb_core.specs.Aims.{sought};
ghost use Rattle.verb_core.specs.Step.{way_of};

use crate::spares::Spares;
use mail_rows::HeldConf;
use mail_rows::aims::reach_of;
use mail_rows::inferiors::has_inferior;
use mail_rows::lookup::{copied_rows, names_in, rows_of, search_mailbox};
use mail_rows::opening::fixed_rows;
use mail_rows::shown::way_of;
use std::alloc::Global;
use std::marker::Model;
use undo_base::{Copies, Name, Names, NoMemory, User};
use verb_core::laws::steps_keep_validity;
use verb_core::{BoxId, Conf, House, Item, Mailbox, Resolved, Rows, Way};

/// The house, the configuration in force, and the mailboxes by rising user and name.
#[derive(Drop)]
pub struct Store {
    pub(crate) house: House,
    /// The configuration in force, and the one that the next effect brings.
    pub(crate) conf: HeldConf,
    pub(crate) rows: Vec<(BoxId, Mailbox)>,
    /// For each mailbox that the next effect makes grow.
    pub(crate) spares: Spares,
}

impl Model for Store {
    ghost use Rattle.std.specs.Prelude.{◌-◌, IsTrue, vec_len, vec_capacity};
    ghost use Rattle.verb_core.specs.Boxes.{is_rising};
    ghost use Rattle.verb_core.specs.Store.{MailStore};
    ghost use Rattle.box_store.specs.Kept.{Kept};

    ghost Value = { Kept };

    ghost view = { λ s. record {
      store = record { house = s.house; conf = s.conf.conf; boxes = s.rows.items };
      room = vec_capacity s.rows - vec_len s.rows;
      spares = s.spares;
      ready = s.conf.ready;
    } };

    ghost invariant = { λ s. IsTrue (is_rising s.rows.items) };
}

impl Store {
    ghost use Rattle.box_store.specs.Kept.{sought_in};
    ghost use Rattle.box_store.specs.Effects.{IsAimed};

    /// Each user's fixed mailboxes, empty. The configuration has no filter.
    pub fn opening(alloc: Global, house: &House, conf: Conf) -> Result<Store, NoMemory>
        requires house { IsTrue (is_house house.now) }
        requires aliases { IsTrue (list_all (λ a. list_all (is_known house.now) a.users) conf.aliases) }
        requires filters { conf.filters ≡ [] }
        ensures store { IfOk result (λ made. made.store ≡ opening house.now conf) }
        ensures valid { IfOk result (λ made. IsValid made.store) }
    {
        let rows = fixed_rows(alloc, house)?;
        let house = house.copy(alloc)?;
        steps_keep_validity();
        Ok(Store {
            house,
            conf: HeldConf::new(alloc, conf),
            rows,
            spares: Spares::new(alloc),
        })
    }

    /// Where the item's mail goes now. The text is the item's.
    pub fn aim(&self, alloc: Global, item: &Item, text: &[u8]) -> Result<Resolved, NoMemory>
        requires valid { IsValid self.now.store }
        requires formed { IsWellFormed self.now.store.house item.now }
        ensures item { IfOk result (λ what. what.item ≡ item.now) }
        ensures sought { IfOk result (λ what. sought_in what ≡ sought self.now.store text.now item.now.by item.now.deed) }
        ensures aimed { IfOk result (λ what. IsAimed what self.now.store) }
    {
        let reach = reach_of(
            alloc,
            self.rows.as_slice(),
            &self.house,
            self.conf.conf(),
            item,
            text,
        )?;
        let item = item.copy(alloc)?;
        Ok(Resolved {
            item,
            aims: reach.aims,
            missed: reach.missed,
        })
    }

    /// The mailbox of that user and name. Takes no memory.
    pub fn mailbox(&self, user: User, name: &Name) -> Option<&Mailbox>
        ensures { option_copied result ≡ row_at (box_of user name.now) self.now.store.boxes }
    {
        search_mailbox(self.rows.as_slice(), user, name)
    }

    /// How a RENAME goes (RFC 3501, section 6.3.5). Takes no memory.
    pub fn way(&self, user: User, source: &Name, target: &Name) -> Way
        ensures { result ≡ way_of user source.now target.now self.now.store.boxes }
    {
        way_of(self.rows.as_slice(), user, source, target)
    }

    /// Whether the user has an inferior of the name. Takes no memory.
    pub fn has_inferior(&self, user: User, name: &Name) -> bool
        ensures { result ≡ has_below user name.now self.now.store.boxes }
    {
        has_inferior(self.rows.as_slice(), user, name.bytes())
    }

    /// The configuration in force. Takes no memory.
    pub fn conf(&self) -> &Conf
        ensures { result.now ≡ self.now.store.conf }
    {
        self.conf.conf()
    }

    /// The user's names, in byte order.
    pub fn names(&self, alloc: Global, user: User) -> Result<Names, NoMemory>
        ensures { IfOk result (λ names. names ≡ names_of user self.now.store.boxes) }
    {
        names_in(alloc, user, rows_of(self.rows.as_slice(), user))
    }

    /// All mailboxes, by rising user and name.
    pub fn rows(&self, alloc: Global) -> Result<Rows, NoMemory>
        ensures { IfOk result (λ rows. rows ≡ self.now.store.boxes) }
    {
        copied_rows(alloc, self.rows.as_slice())
    }
}
