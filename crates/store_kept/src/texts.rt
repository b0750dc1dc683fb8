//! The texts that come with a base.
ghost use Rattle.std.specs.Prelude.{◌≡◌, ◌<◌, ◌≤◌, [], ◌++◌, map, is_some, not, ◌&&◌, length, set, IfOk, IfErr, OnErr, OnOk, IsTrue};
ghost use Rattle.std.specs.List.{insert};
ghost use Rattle.std.specs.List.Sorted.{IsPermutation};
ghost use Rattle.verb_core.specs.declared.mailbox.Body.{Body as TheBody};
ghost use Rattle.store_kept.specs.Founding.{entries_of, has_text_of, names_body};
ghost use Rattle.store_kept.specs.Kept.{body_cmp, with_base_text};
ghost use Rattle.store_kept.specs.Naming.{ComesIn, IsRowOf, all_come, is_named, naming, texts_come};

use std::alloc::Global;
use std::cmp::Ordering;
use std::marker::Model;
use undo_base::{NoMemory, PastText, Text};
use verb_core::{Body, BoxId, Entry, Mailbox};

/// A body, and its text once that has come.
type Row = (Body, Option<PastText>);

/// How a row lies to a body, by origin and then by rev.
fn compare(row: &Row, body: Body) -> Ordering
    ensures { result ≡ body_cmp row.now.0 body }
{
    match row.0.origin.cmp(&body.origin) {
        Ordering::Less => Ordering::Less,
        Ordering::Equal => row.0.rev.cmp(&body.rev),
        Ordering::Greater => Ordering::Greater,
    }
}

/// The bodies of entries behind others.
fn push_bodies(bodies: &mut Vec<Body>, entries: &[Entry]) -> Result<(), NoMemory>
    ensures { OnOk result (bodies.new.items ≡ bodies.old.items ++ map (λ e. e.body) entries.now) }
{
    for entry in entries {
        bodies.push(entry.body)?;
    }
    Ok(())
}

/// The bodies of the entries of all mailboxes.
fn bodies_in(alloc: Global, rows: &[(BoxId, Mailbox)]) -> Result<Vec<Body>, NoMemory>
    ensures { IfOk result (λ bodies. bodies.items ≡ map (λ e. e.body) (entries_of rows.now)) }
{
    let mut bodies = Vec::new(alloc);
    for row in rows {
        push_bodies(&mut bodies, row.1.entries.as_slice())?;
    }
    Ok(bodies)
}

/// Puts bodies in their order, so that each comes in behind those before it.
fn sort_bodies(bodies: &mut Vec<Body>)
    ensures { IsPermutation bodies.old.items bodies.new.items }
{
    bodies.sort_unstable_by_key(|body| (body.origin, body.rev));
}

/// Whether a row has its text.
fn has_come(row: &Row) -> bool
    ensures { result ≡ is_some row.now.1 }
{
    row.1.is_some()
}

/// Puts a row at a place, before those from there on.
fn insert_row(rows: &mut Vec<Row>, place: usize, row: Row) -> Result<(), NoMemory>
    requires { place ≤ length rows.old.items }
    ensures there { OnOk result (rows.new.items ≡ insert rows.old.items place row) }
    ensures same { OnErr result (rows.new.items ≡ rows.old.items) }
{
    rows.insert(place, row)?;
    Ok(())
}

/// Puts a row in the place of another.
fn put_row(rows: &mut Vec<Row>, place: usize, row: Row)
    requires { place < length rows.old.items }
    ensures { rows.new.items ≡ set rows.old.items place row }
{
    rows[place] = row;
}

/// The bodies that a base names, rising, each with its text once that has come.
#[derive(Drop)]
pub struct BaseTexts {
    rows: Vec<Row>,
}

impl Model for BaseTexts {
    ghost use Rattle.std.specs.Prelude.{IsTrue};
    ghost use Rattle.store_kept.specs.Naming.{NamedTexts, are_rising};

    ghost Value = { NamedTexts };

    ghost view = { λ t. t.rows.items };

    ghost invariant = { λ t. IsTrue (are_rising t.rows.items) };
}

impl BaseTexts {
    /// No bodies, which takes no memory.
    fn new(alloc: Global) -> BaseTexts
        ensures { result ≡ [] }
    {
        BaseTexts {
            rows: Vec::new(alloc),
        }
    }

    /// Where the row of a body stands, or where it would come in.
    fn find(&self, body: Body) -> Result<usize, usize>
        ensures there { IfOk result (IsRowOf body self.now) }
        ensures none { IfErr result (ComesIn body self.now) }
    {
        self.rows
            .as_slice()
            .binary_search_by(|row| compare(row, body))
    }

    /// Names one body more, unless it is named.
    fn name(&mut self, body: Body) -> Result<(), NoMemory>
        ensures { OnOk result (self.new ≡ naming body self.old) }
    {
        match self.find(body) {
            Ok(_) => Ok(()),
            Err(place) => insert_row(&mut self.rows, place, (body, None)),
        }
    }

    /// The bodies that the entries of mailboxes name, none of which has its text.
    pub fn naming(alloc: Global, rows: &[(BoxId, Mailbox)]) -> Result<BaseTexts, NoMemory>
        ensures names { IfOk result (λ texts. (body : TheBody) → is_named texts body ≡ names_body rows.now body) }
        ensures none { IfOk result (λ texts. texts_come texts ≡ []) }
    {
        let mut bodies = bodies_in(alloc, rows)?;
        sort_bodies(&mut bodies);
        let mut texts = BaseTexts::new(alloc);
        for body in bodies.as_slice() {
            texts.name(*body)?;
        }
        Ok(texts)
    }

    /// Whether a body is named and has no text yet. It takes no memory.
    pub fn wants(&self, body: Body) -> bool
        ensures { result ≡ (is_named self.now body && not (has_text_of (texts_come self.now) body)) }
    {
        match self.find(body) {
            Ok(place) => !has_come(&self.rows[place]),
            Err(_) => false,
        }
    }

    /// Whether a body has its text. It takes no memory.
    pub fn has(&self, body: Body) -> bool
        ensures { result ≡ has_text_of (texts_come self.now) body }
    {
        match self.find(body) {
            Ok(place) => has_come(&self.rows[place]),
            Err(_) => false,
        }
    }

    /// Takes the text of a body that is named. It takes no memory.
    pub fn put(&mut self, body: Body, text: &Text)
        requires { IsTrue (is_named self.old body) }
        ensures texts { texts_come self.new ≡ with_base_text body text.now (texts_come self.old) }
        ensures names { (other : TheBody) → is_named self.new other ≡ is_named self.old other }
    {
        self.put_lying(body, PastText::of(text));
    }

    /// Takes a text that lies elsewhere, of a body that is named. It takes no memory.
    pub fn put_lying(&mut self, body: Body, text: PastText)
        requires { IsTrue (is_named self.old body) }
        ensures texts { texts_come self.new ≡ with_base_text body text (texts_come self.old) }
        ensures names { (other : TheBody) → is_named self.new other ≡ is_named self.old other }
    {
        if let Ok(place) = self.find(body) {
            put_row(&mut self.rows, place, (body, Some(text)));
        }
    }

    /// Whether each body that is named has its text. It takes no memory.
    pub fn are_whole(&self) -> bool
        ensures { result ≡ all_come self.now }
    {
        self.rows.as_slice().iter().all(has_come)
    }

    /// The bodies, rising, each with its text once that has come.
    pub fn rows(&self) -> &[(Body, Option<PastText>)]
        ensures { result.now ≡ self.now }
    {
        self.rows.as_slice()
    }
}
