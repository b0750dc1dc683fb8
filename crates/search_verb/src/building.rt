//! Keys that contracts see as what they ask, and how they are made.
//!
//! A command keeps what it searches for as `Search`, a struct round the enum of keys, seen by contracts as what it asks (`Asked`,
//! a plain tree). An enum that holds itself in a Box has addresses in its value, and no clause could say which key a command
//! gives.
ghost use Rattle.std.specs.Prelude.{◌≡◌, [], ◌∷◌, ◌++◌, IfOk, OnOk, OnErr, length};
ghost use Rattle.search_verb.specs.Asked.{asked_by, Every, Never, Answered, Deleted, Draft, Flagged, Seen, Places, Uids, Before, On, Since, Larger, Smaller, Field, Body, Text, Not, Or};
ghost use Rattle.search_verb.specs.Asked as asked;
ghost use Rattle.search_verb.specs.Meets.{meets, facts_of, needed};

use crate::{Bytes, Candidate, Look, SearchKey, SearchKeys, SearchRanges, matching, strings};
use std::alloc::Global;
use std::marker::Model;
use undo_base::NoMemory;

/// A key, seen by contracts as what it asks, wherever its parts lie in memory.
#[derive(Debug, Drop)]
pub struct Search {
    key: SearchKey,
}

impl Model for Search {
    ghost use Rattle.search_verb.specs.Asked.{Asked, asked_by};
    ghost use Rattle.search_verb.specs.Codes.{asked_code};

    ghost Value = { Asked };

    ghost coded = { asked_code };

    ghost view = { λ s. asked_by s.key };
}

/// Keys in order, seen as what each of them asks.
#[derive(Debug, Drop)]
pub struct Searches {
    keys: SearchKeys,
}

impl Model for Searches {
    ghost use Rattle.std.specs.Prelude.{List, map};
    ghost use Rattle.search_verb.specs.Asked.{Asked, asked_by};
    ghost use Rattle.search_verb.specs.Codes.{asked_list_code};

    ghost Value = { List Asked };

    ghost coded = { asked_list_code };

    ghost view = { λ s. map asked_by s.keys.items };
}

impl Searches {
    /// No keys, which takes no memory.
    pub fn new(alloc: Global) -> Searches
        ensures { result ≡ [] }
    {
        Searches {
            keys: Vec::new(alloc),
        }
    }

    /// Adds a key at the end.
    pub fn push(&mut self, search: Search) -> Result<(), NoMemory>
        ensures ok { OnOk result (self.new ≡ self.old ++ search ∷ []) }
        ensures err { OnErr result (self.new ≡ self.old) }
    {
        self.keys.push(search.into_key())?;
        Ok(())
    }

    /// How many keys there are.
    pub fn len(&self) -> usize
        ensures { result ≡ length self.now }
    {
        self.keys.len()
    }
}

impl Search {
    /// A key as it is.
    pub fn of(key: SearchKey) -> Search
        ensures { result ≡ asked_by key }
    {
        Search { key }
    }

    /// The key, with no memory taken.
    pub fn key(&self) -> &SearchKey
        ensures { asked_by result.now ≡ self.now }
    {
        &self.key
    }

    /// The key by itself, with no memory taken.
    pub fn into_key(self) -> SearchKey
        ensures { asked_by result ≡ self }
    {
        let Search { key } = self;
        key
    }

    /// Every message.
    pub fn all() -> Search
        ensures { result ≡ Every }
    {
        Search::of(SearchKey::All)
    }

    /// No message.
    pub fn none() -> Search
        ensures { result ≡ Never }
    {
        Search::of(SearchKey::None)
    }

    /// Messages with `\Answered`.
    pub fn answered() -> Search
        ensures { result ≡ Answered }
    {
        Search::of(SearchKey::Answered)
    }

    /// Messages with `\Deleted`.
    pub fn deleted() -> Search
        ensures { result ≡ Deleted }
    {
        Search::of(SearchKey::Deleted)
    }

    /// Messages with `\Draft`.
    pub fn draft() -> Search
        ensures { result ≡ Draft }
    {
        Search::of(SearchKey::Draft)
    }

    /// Messages with `\Flagged`.
    pub fn flagged() -> Search
        ensures { result ≡ Flagged }
    {
        Search::of(SearchKey::Flagged)
    }

    /// Messages with `\Seen`.
    pub fn seen() -> Search
        ensures { result ≡ Seen }
    {
        Search::of(SearchKey::Seen)
    }

    /// Messages at these places of the view, from 1.
    pub fn places(ranges: SearchRanges) -> Search
        ensures { result ≡ Places ranges }
    {
        Search::of(SearchKey::Places(ranges))
    }

    /// Messages with these UIDs.
    pub fn uids(ranges: SearchRanges) -> Search
        ensures { result ≡ Uids ranges }
    {
        Search::of(SearchKey::Uids(ranges))
    }

    /// Messages that came before a day in UTC, counted from 1 January 1970.
    pub fn before(day: i64) -> Search
        ensures { result ≡ Before day }
    {
        Search::of(SearchKey::Before(day))
    }

    /// Messages that came on this day.
    pub fn on(day: i64) -> Search
        ensures { result ≡ On day }
    {
        Search::of(SearchKey::On(day))
    }

    /// Messages that came on this day or later.
    pub fn since(day: i64) -> Search
        ensures { result ≡ Since day }
    {
        Search::of(SearchKey::Since(day))
    }

    /// Messages of more bytes.
    pub fn larger(size: u32) -> Search
        ensures { result ≡ Larger size }
    {
        Search::of(SearchKey::Larger(size))
    }

    /// Messages of fewer bytes.
    pub fn smaller(size: u32) -> Search
        ensures { result ≡ Smaller size }
    {
        Search::of(SearchKey::Smaller(size))
    }

    /// Messages with a string in the value of a field of this name.
    pub fn field(name: Bytes, bytes: Bytes) -> Search
        ensures { result ≡ Field name bytes }
    {
        Search::of(SearchKey::Field { name, bytes })
    }

    /// Messages with a string in what follows the header.
    pub fn body(bytes: Bytes) -> Search
        ensures { result ≡ Body bytes }
    {
        Search::of(SearchKey::Body(bytes))
    }

    /// Messages with a string in their text.
    pub fn text(bytes: Bytes) -> Search
        ensures { result ≡ Text bytes }
    {
        Search::of(SearchKey::Text(bytes))
    }

    /// Messages that do not match a key.
    pub fn not(alloc: Global, inner: Search) -> Result<Search, NoMemory>
        ensures { IfOk result (λ search. search ≡ Not inner) }
    {
        let inner = Box::new(alloc, inner.into_key())?;
        Ok(Search::of(SearchKey::Not(inner)))
    }

    /// Messages that match one of two keys.
    pub fn or(alloc: Global, first: Search, second: Search) -> Result<Search, NoMemory>
        ensures { IfOk result (λ search. search ≡ Or first second) }
    {
        let first = Box::new(alloc, first.into_key())?;
        let second = Box::new(alloc, second.into_key())?;
        Ok(Search::of(SearchKey::Or(first, second)))
    }

    /// Messages that match all of the keys.
    pub fn all_of(searches: Searches) -> Search
        ensures { result ≡ asked.all_of searches }
    {
        let Searches { keys } = searches;
        Search::of(SearchKey::And(keys))
    }

    /// Whether a message matches. It takes no memory.
    pub fn matches(&self, what: &Candidate<'_>) -> bool
        ensures { result ≡ meets self.now (facts_of what.now) }
    {
        matching::matches(&self.key, what)
    }

    /// The same, in time that grows as strings and text together, whatever repeats in them. The one error is want of memory.
    pub fn finds(&self, alloc: Global, what: &Candidate<'_>) -> Result<bool, NoMemory>
        ensures { IfOk result (λ found. found ≡ meets self.now (facts_of what.now)) }
    {
        strings::finds(alloc, &self.key, what)
    }

    /// What of a message has to be looked at to tell whether it matches.
    pub fn looks(&self) -> Look
        ensures { result ≡ needed self.now }
    {
        matching::looks(&self.key)
    }
}
