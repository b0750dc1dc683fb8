//! What a store in use begins with.
//!
//! What is kept of a store in use, and what performing an item makes of it, have a crate of their own, above paradox, whose
//! report it holds. All crates above speak of the same record.
//!
//! A base is made anew for a cycle that begins before every snapshot. Of the opening store only the house and the configuration
//! are held: a second store held would cost the memory of its rows for good. Of a past that was cut off the rows are held.
ghost use Rattle.std.specs.Prelude.{◌≡◌, [], IfOk, IsTrue};
ghost use Rattle.std.specs.List.{list_all};
ghost use Rattle.verb_core.specs.Store.{IsValid, is_house, is_known};
ghost use Rattle.box_store.specs.Making.{makes_store, store_of_rows};
ghost use Rattle.store_kept.specs.Beginning.{origin_of_past};
ghost use Rattle.store_kept.specs.Founding.{has_text_of};
ghost use Rattle.store_kept.specs.Kept.{opening_origin};
ghost use Rattle.store_kept.specs.Naming.{texts_come};

use crate::texts::BaseTexts;
use box_store::{RowsRefused, Store, rows_make_valid_stores};
use std::alloc::Global;
use std::marker::Model;
use undo_base::{Copies, NoMemory, PastText};
use verb_core::{Body, Conf, House, Rows};

/// The store that was left of a past that was cut off, as its configuration and its rows, with the texts of its messages, and the
/// number that came next.
#[derive(Drop)]
pub struct Past {
    pub conf: Conf,
    pub rows: Rows,
    pub texts: BaseTexts,
    pub next: u32,
}

/// A house, the configuration at first, and the base, the store before the first item. The base is held as what makes it: it is
/// the opening store of the house and the configuration, unless a past was cut off.
#[derive(Drop)]
pub struct Base {
    house: House,
    opening: Conf,
    past: Option<Past>,
}

impl Model for Base {
    ghost use Rattle.std.specs.Prelude.{◌≡◌, [], IsTrue};
    ghost use Rattle.std.specs.List.{list_all};
    ghost use Rattle.verb_core.specs.Store.{is_house, is_known};
    ghost use Rattle.store_kept.specs.Beginning.{makes_base, origin_by};
    ghost use Rattle.store_kept.specs.Kept.{Origin};

    ghost Value = { Origin };

    ghost view = { λ b. origin_by b.house b.opening b.past };

    ghost invariant = { λ b. record {
      house : IsTrue (is_house b.house);
      aliases : IsTrue (list_all (λ a. list_all (is_known b.house) a.users) b.opening.aliases);
      filters : b.opening.filters ≡ [];
      past : IsTrue (makes_base b.house b.past);
    } };
}

impl Past {
    /// The store that was left, made anew.
    pub fn store(&self, alloc: Global, house: &House) -> Result<Store, NoMemory>
        requires { IsTrue (makes_store house.now self.now.conf self.now.rows) }
        ensures store { IfOk result (λ made. made.store ≡ store_of_rows house.now self.now.conf self.now.rows) }
        ensures valid { IfOk result (λ made. IsValid made.store) }
    {
        rows_make_valid_stores();
        let conf = self.conf.copy(alloc)?;
        match self.rows.copy(alloc) {
            Ok(rows) => match Store::from_rows(alloc, house, conf, rows) {
                Ok(store) => Ok(store),
                Err(RowsRefused::Row { .. }) => unreachable!(),
                Err(RowsRefused::NoMemory) => Err(NoMemory),
            },
            Err(NoMemory) => {
                drop(conf);
                Err(NoMemory)
            }
        }
    }
}

impl Base {
    /// With the opening store of a house and a configuration.
    pub fn new(house: House, opening: Conf) -> Base
        requires house { IsTrue (is_house house) }
        requires aliases { IsTrue (list_all (λ a. list_all (is_known house) a.users) opening.aliases) }
        requires filters { opening.filters ≡ [] }
        ensures { result ≡ opening_origin house opening }
    {
        Base {
            house,
            opening,
            past: None,
        }
    }

    /// With the store of a past that was cut off.
    pub fn behind(house: House, opening: Conf, past: Past) -> Base
        requires house { IsTrue (is_house house) }
        requires aliases { IsTrue (list_all (λ a. list_all (is_known house) a.users) opening.aliases) }
        requires filters { opening.filters ≡ [] }
        requires past { IsTrue (makes_store house past.conf past.rows) }
        ensures { result ≡ origin_of_past house opening past }
    {
        Base {
            house,
            opening,
            past: Some(past),
        }
    }

    /// What its configuration says for good.
    pub fn house(&self) -> &House
        ensures value { result.now ≡ self.now.house }
        ensures sound { IsTrue (is_house result.now) }
    {
        &self.house
    }

    /// The configuration at first.
    pub fn opening(&self) -> &Conf
        ensures { result.now ≡ self.now.opening }
    {
        &self.opening
    }

    /// The number from which this journal draws.
    pub fn first(&self) -> u32
        ensures { result ≡ self.now.first }
    {
        match &self.past {
            Some(past) => past.next,
            None => self.house.first,
        }
    }

    /// Whether the text of a body comes with the base. It takes no memory.
    pub fn has_text(&self, body: Body) -> bool
        ensures { result ≡ has_text_of self.now.texts body }
    {
        match &self.past {
            Some(past) => past.texts.has(body),
            None => false,
        }
    }

    /// The bodies of the base, rising, each with its text, which lies in the journal.
    pub fn texts(&self) -> &[(Body, Option<PastText>)]
        ensures { texts_come result.now ≡ self.now.texts }
    {
        match &self.past {
            Some(past) => past.texts.rows(),
            None => &[],
        }
    }

    /// The store before the first item, made anew.
    pub fn store(&self, alloc: Global) -> Result<Store, NoMemory>
        ensures store { IfOk result (λ made. made.store ≡ self.now.base) }
        ensures valid { IfOk result (λ made. IsValid made.store) }
        ensures house { IfOk result (λ made. made.store.house ≡ self.now.house) }
    {
        match &self.past {
            Some(past) => past.store(alloc, &self.house),
            None => {
                let conf = self.opening.copy(alloc)?;
                Store::opening(alloc, &self.house, conf)
            }
        }
    }
}
