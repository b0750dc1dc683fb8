//! Reads a configuration.
ghost use Rattle.std.specs.Prelude.{◌≡◌, [], IfOk, IfSome, IsTrue};
ghost use Rattle.std.specs.List.{list_all};
ghost use Rattle.toml.specs.Data.{get_member};
ghost use Rattle.toml.specs.View.{view, table_view};
ghost use Rattle.verb_core.specs.Store.{is_house, is_known};
ghost use Rattle.house_text.specs.Beginning.{aliases_rise, can_begin};
ghost use Rattle.house_text.specs.Configuration as spec;
ghost use Rattle.house_text.specs.Configuration.{ReadsConfig};

use crate::aliases::conf_in;
use crate::house::house_in;
use crate::tables::{size, value_at};
use std::alloc::Global;
use thiserror::Error;
use toml::Table;
use undo_base::NoMemory;
use verb_core::{Conf, House};

/// Why a text is no configuration.
#[derive(Clone, Copy, Debug, Error)]
pub enum ConfigRefused {
    #[error("not a configuration")]
    Text,
    #[error("no memory")]
    NoMemory,
}

impl From<NoMemory> for ConfigRefused {
    ghost use Rattle.std.specs.Prelude.{◌≡◌};
    ghost use Rattle.house_text.specs.declared.read.ConfigRefused.TheVariants.{NoMemory as no_memory};

    ghost from_gives = { λ _ refused. refused ≡ no_memory };

    fn from(_: NoMemory) -> Self {
        ConfigRefused::NoMemory
    }
}

/// How many of the keys that may be left out are there.
fn count_some(table: &Table, key: &str) -> usize
    ensures { result ≡ spec.count_some (get_member key.now (table_view table.now)) }
{
    match value_at(table, key) {
        Some(_) => 1,
        None => 0,
    }
}

fn has_no_other(table: &Table) -> bool
    ensures { result ≡ spec.has_no_other (table_view table.now) }
{
    size(table) == 4 + count_some(table, "first") + count_some(table, "aliases")
}

/// What a document configures.
fn config_in(alloc: Global, table: &Table) -> Result<Option<(House, Conf)>, NoMemory>
    ensures value { IfOk result (λ r. r ≡ spec.config_of (table_view table.now)) }
    ensures house { IfOk result (λ r. IfSome r (λ config. IsTrue (is_house config.0))) }
    ensures aliases { IfOk result (λ r. IfSome r (λ config. IsTrue (spec.are_known config.0.accounts config.1.aliases))) }
    ensures filters { IfOk result (λ r. IfSome r (λ config. config.1.filters ≡ [])) }
    ensures rising { IfOk result (λ r. IfSome r (λ config. IsTrue (aliases_rise config.1.aliases))) }
{
    if !has_no_other(table) {
        return Ok(None);
    }
    let Some(house) = house_in(alloc, table)? else {
        return Ok(None);
    };
    let Some(conf) = conf_in(alloc, house.accounts.as_slice(), table)? else {
        return Ok(None);
    };
    Ok(Some((house, conf)))
}

/// The house and the opening configuration of a text.
#[tactic(auto, unfolding(crate::specs::Configuration::configured))]
pub fn read_config(alloc: Global, bytes: &[u8]) -> Result<(House, Conf), ConfigRefused>
    ensures value { ReadsConfig bytes.now result }

    // what a store and a desk ask of it
    ensures house { IfOk result (λ config. IsTrue (is_house config.0)) }
    ensures aliases { IfOk result (λ config. IsTrue (list_all (λ a. list_all (is_known config.0) a.users) config.1.aliases)) }
    ensures filters { IfOk result (λ config. config.1.filters ≡ []) }
    ensures begins { IfOk result (λ config. IsTrue (can_begin config.0 config.1)) }
{
    match toml::table_from_slice(alloc, bytes) {
        Ok(table) => match config_in(alloc, &table)? {
            Some(config) => Ok(config),
            None => Err(ConfigRefused::Text),
        },
        Err(error) => {
            if error.is_memory() {
                Err(ConfigRefused::NoMemory)
            } else {
                Err(ConfigRefused::Text)
            }
        }
    }
}
