//! Maildrops: the messages that a session knows, and how they are listed.
//!
//! Sizes, UIDs and the stamp are those of PASS; the text is that of the message as it lies in INBOX now. STAT, LIST and UIDL go
//! on telling messages that are gone, DELE marks them, and QUIT's STORE names them.
ghost use Rattle.std.specs.Prelude.{◌≡◌, ◌++◌, ◌≤◌, false, IfOk, OnOk, flat_map, length};
ghost use Rattle.std.specs.List.{enumerate_from};
ghost use Rattle.shelf.specs.Notes.{size_of};
ghost use Rattle.pop_session.specs.Answer as words;
ghost use Rattle.pop_session.specs.Maildrop as spec;

use crate::answer::{Answer, write_answer};
use shelf::Shelf;
use std::alloc::{AllocError, Global};
use std::marker::Model;
use undo_base::{Key, Keys, NoMemory, Text};
use verb_core::Entry;

/// A message: its UID, its key, the octets of its text as it is stored, and whether it is marked as deleted.
#[derive(Clone, Copy)]
pub struct Message {
    pub uid: u64,
    pub key: Key,
    pub size: u32,
    pub marked: bool,
}

/// Messages, in order.
#[derive(Drop)]
pub struct Messages {
    list: Vec<Message>,
}

impl Model for Messages {
    ghost use Rattle.std.specs.Prelude.{List};
    ghost use Rattle.pop_session.specs.declared.maildrop.Message.{Message};

    ghost Value = { List Message };

    ghost view = { λ m. m.list.items };
}

/// INBOX's stamp, and its messages.
#[derive(Drop)]
pub struct Maildrop {
    pub stamp: u32,
    pub messages: Messages,
}

/// What LIST and UIDL tell of a message.
#[derive(Clone, Copy)]
pub enum Detail {
    Octets,
    UniqueId,
}

fn stored_size(sizes: &Shelf, entry: &Entry) -> u32
    ensures { result ≡ (spec.message_of (size_of sizes.now.notes) entry.now).size }
{
    match sizes.size(entry.body) {
        Some(size) => size,
        None => 0,
    }
}

fn message_of(sizes: &Shelf, entry: &Entry) -> Message
    ensures { result ≡ spec.message_of (size_of sizes.now.notes) entry.now }
{
    Message {
        uid: entry.uid,
        key: entry.key,
        size: stored_size(sizes, entry),
        marked: false,
    }
}

fn octets_of(message: &Message) -> u64
    ensures value { result ≡ spec.octets_of message.now }
    ensures most { result ≤ 4294967295 }
{
    if message.marked {
        0
    } else {
        message.size as u64
    }
}

fn all_messages(alloc: Global, sizes: &Shelf, entries: &[Entry]) -> Result<Vec<Message>, AllocError>
    ensures { IfOk result (λ messages. messages.items ≡ spec.messages_of (size_of sizes.now.notes) entries.now) }
{
    entries
        .iter()
        .map(|entry| message_of(sizes, entry))
        .collect(alloc)
}

/// The messages of a mailbox.
pub(crate) fn messages_of(
    alloc: Global,
    sizes: &Shelf,
    entries: &[Entry],
) -> Result<Messages, NoMemory>
    ensures { IfOk result (λ messages. messages ≡ spec.messages_of (size_of sizes.now.notes) entries.now) }
{
    let list = all_messages(alloc, sizes, entries)?;
    Ok(Messages { list })
}

fn all_keys(alloc: Global, messages: &[Message]) -> Result<Vec<Key>, AllocError>
    ensures { IfOk result (λ keys. keys.items ≡ spec.keys_of messages.now) }
{
    messages.iter().map(|message| message.key).collect(alloc)
}

fn keys_of_marked(alloc: Global, messages: &[Message]) -> Result<Vec<Key>, AllocError>
    ensures { IfOk result (λ keys. keys.items ≡ spec.marked_keys messages.now) }
{
    messages
        .iter()
        .filter(|message| message.marked)
        .map(|message| message.key)
        .collect(alloc)
}

fn unmarked(message: &Message) -> Message
    ensures { result ≡ record message.now { marked = false } }
{
    Message {
        marked: false,
        ..*message
    }
}

fn all_unmarked(alloc: Global, messages: &[Message]) -> Result<Vec<Message>, AllocError>
    ensures { IfOk result (λ list. list.items ≡ spec.without_marks messages.now) }
{
    messages
        .iter()
        .map(|message| unmarked(message))
        .collect(alloc)
}

fn count_kept(messages: &[Message]) -> usize
    ensures { result ≡ spec.count messages.now }
{
    messages.iter().filter(|message| !message.marked).count()
}

fn octets_in(messages: &[Message]) -> u64
    requires { length messages.now ≤ 65536 }
    ensures { result ≡ spec.octets messages.now }
{
    let mut octets: u64 = 0;
    for message in messages {
        octets += octets_of(message);
    }
    octets
}

impl Messages {
    /// How many there are.
    pub(crate) fn len(&self) -> usize
        ensures { result ≡ length self.now }
    {
        self.list.len()
    }

    /// The message of a number, from 1, unless it is marked.
    pub(crate) fn message_at(&self, number: u64) -> Option<Message>
        ensures { result ≡ spec.message_at self.now number }
    {
        match self.list.get((number as usize).saturating_sub(1)) {
            None => None,
            Some(message) => { if message.marked { None } else { Some(*message) } }
        }
    }

    /// The keys of all.
    pub(crate) fn keys(&self, alloc: Global) -> Result<Keys, NoMemory>
        ensures { IfOk result (λ keys. keys ≡ spec.keys_of self.now) }
    {
        let keys = all_keys(alloc, self.list.as_slice())?;
        Ok(Keys::from_vec(keys))
    }

    /// The keys of those that are marked, in order.
    pub(crate) fn marked_keys(&self, alloc: Global) -> Result<Keys, NoMemory>
        ensures { IfOk result (λ keys. keys ≡ spec.marked_keys self.now) }
    {
        let keys = keys_of_marked(alloc, self.list.as_slice())?;
        Ok(Keys::from_vec(keys))
    }

    /// How many are not marked. Takes no memory.
    pub(crate) fn count(&self) -> usize
        ensures { result ≡ spec.count self.now }
    {
        count_kept(self.list.as_slice())
    }

    /// The octets of those that are not marked. Takes no memory.
    pub(crate) fn octets(&self) -> u64
        requires { length self.now ≤ 65536 }
        ensures { result ≡ spec.octets self.now }
    {
        octets_in(self.list.as_slice())
    }

    /// Marks the message of a number, if there is one.
    #[tactic(auto, using(crate::proofs::Listed::marked_past))]
    pub(crate) fn mark(&mut self, number: u64, message: Message)
        ensures { self.new ≡ spec.with_mark self.old number message }
    {
        let place = (number as usize).saturating_sub(1);
        if place < self.list.len() {
            self.list[place] = Message {
                marked: true,
                ..message
            };
        }
    }

    /// The same messages with no marks.
    pub(crate) fn unmarked(&self, alloc: Global) -> Result<Messages, NoMemory>
        ensures { IfOk result (λ messages. messages ≡ spec.without_marks self.now) }
    {
        let list = all_unmarked(alloc, self.list.as_slice())?;
        Ok(Messages { list })
    }
}

fn push_detail(
    alloc: Global,
    text: &mut Text,
    detail: Detail,
    stamp: u32,
    number: u64,
    message: Message,
) -> Result<(), NoMemory>
    ensures { OnOk result (text.new ≡ text.old ++ words.said (spec.detail_text detail stamp number message)) }
{
    let line = match detail {
        Detail::Octets => format!(in alloc; "{number} {}\r\n", message.size)?,
        Detail::UniqueId => format!(in alloc; "{number} {stamp}.{}\r\n", message.uid)?,
    };
    text.extend(line.as_bytes())
}

/// Adds the line of a message, unless it is marked.
fn push_line(
    alloc: Global,
    text: &mut Text,
    detail: Detail,
    stamp: u32,
    number: u64,
    message: Message,
) -> Result<(), NoMemory>
    ensures { OnOk result (text.new ≡ text.old ++ spec.detail_line detail stamp (number, message)) }
{
    if message.marked {
        return Ok(());
    }
    push_detail(alloc, text, detail, stamp, number, message)
}

/// Adds the lines of messages.
fn push_lines(
    alloc: Global,
    text: &mut Text,
    detail: Detail,
    stamp: u32,
    messages: &[Message],
) -> Result<(), NoMemory>
    ensures { OnOk result (text.new ≡ text.old ++ flat_map (spec.detail_line detail stamp) (enumerate_from 1 messages.now)) }
{
    let mut number: u64 = 1;
    for message in messages {
        push_line(alloc, text, detail, stamp, number, *message)?;
        number += 1;
    }
    Ok(())
}

/// What is told of a message.
pub(crate) fn detail_answer(detail: Detail, stamp: u32, number: u64, message: Message) -> Answer
    ensures { result ≡ spec.detail_answer detail stamp number message }
{
    match detail {
        Detail::Octets => Answer::Size {
            number,
            size: message.size,
        },
        Detail::UniqueId => Answer::Unique {
            number,
            stamp,
            uid: message.uid,
        },
    }
}

/// The drop listing.
pub(crate) fn listing(alloc: Global, detail: Detail, maildrop: &Maildrop) -> Result<Text, NoMemory>
    ensures { IfOk result (λ text. text ≡ spec.listing detail maildrop.now) }
{
    let count = maildrop.messages.count() as u64;
    let mut text = write_answer(alloc, Answer::Messages { count })?;
    push_lines(
        alloc,
        &mut text,
        detail,
        maildrop.stamp,
        maildrop.messages.list.as_slice(),
    )?;
    text.extend(b".\r\n")?;
    Ok(text)
}
