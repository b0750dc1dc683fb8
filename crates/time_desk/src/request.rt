//! What the operator asks of the past: a cycle, or to take the last one back.
ghost use Rattle.std.specs.Prelude.{◌≡◌, ℕ, length, IfOk, OnOk, IsTrue};
ghost use Rattle.verb_bytes.specs.Spelling.{record_bytes};
ghost use Rattle.desk_journal.specs.Records.{is_spelled};
ghost use Rattle.time_desk.specs.Requests.{IsFreshOf, key_of, record_of, undoes_of};

use desk_journal::{Journal, cycle_bytes, fresh_of, no_fresh, withdraw_bytes};
use mail_desk::{Desk, Fresh};
use seal_log::Place;
use std::alloc::Global;
use undo_base::{Copies, Name, NoMemory, Text};
use undo_outside::Disk;
use verb_bytes::CycleAsk;

/// What is asked: a cycle, or under a key to take back the cycle of a number.
#[derive(Clone, Copy)]
pub(crate) enum Request<'a> {
    Cycle(&'a CycleAsk),
    Withdrawal(&'a Name, u32),
}

impl<'a> Request<'a> {
    /// The key that its report is to have.
    pub(crate) fn key(&self) -> &Name
        ensures { result.now ≡ key_of self.now }
    {
        match self {
            Request::Cycle(ask) => &ask.key,
            Request::Withdrawal(key, _) => key,
        }
    }

    /// Whether what it leaves can be withdrawn.
    pub(crate) fn undoes(&self) -> bool
        ensures { result ≡ undoes_of self.now }
    {
        match self {
            Request::Cycle(_) => true,
            Request::Withdrawal(_, _) => false,
        }
    }

    /// The bytes of its record.
    fn bytes(&self, alloc: Global, number: u32, at: u64) -> Result<Text, NoMemory>
        ensures bytes { IfOk result (λ bytes. bytes ≡ record_bytes (record_of number at self.now)) }
        ensures spelled { OnOk result (IsTrue (is_spelled (record_of number at self.now))) }
    {
        match self {
            Request::Cycle(ask) => cycle_bytes(alloc, number, at, ask),
            Request::Withdrawal(key, of) => withdraw_bytes(alloc, number, at, key, *of),
        }
    }

    /// Where the texts lie that its record brings, which lies at a place.
    fn fresh(&self, alloc: Global, number: u32, place: Place) -> Result<Fresh, NoMemory>
        ensures { (at : ℕ) → IfOk result (IsFreshOf number at self.now place) }
    {
        match self {
            Request::Cycle(ask) => fresh_of(alloc, number, ask, place),
            Request::Withdrawal(_, _) => Ok(no_fresh(alloc, place)),
        }
    }

    /// The same with a copy of its key.
    pub(crate) fn placed(
        &self,
        alloc: Global,
        number: u32,
        place: Place,
    ) -> Result<(Name, Fresh), NoMemory>
        ensures key { IfOk result (λ parts. parts.0 ≡ key_of self.now) }
        ensures fresh { (at : ℕ) → IfOk result (λ parts. IsFreshOf number at self.now place parts.1) }
    {
        match self.fresh(alloc, number, place) {
            Ok(fresh) => match self.key().copy(alloc) {
                Ok(key) => Ok((key, fresh)),
                Err(NoMemory) => {
                    drop(fresh);
                    Err(NoMemory)
                }
            },
            Err(NoMemory) => Err(NoMemory),
        }
    }
}

/// A record that is to be sealed: the key of its request, its bytes, and where the texts lie that it brings.
#[derive(Drop)]
pub(crate) struct NewRecord {
    pub(crate) key: Name,
    pub(crate) bytes: Text,
    pub(crate) fresh: Fresh,
}

/// The record of a request at a moment, which is to lie behind the last gate of a journal.
pub(crate) fn spelled<D: Disk>(
    alloc: Global,
    journal: &Journal<D>,
    desk: &Desk,
    at: u64,
    asked: &Request<'_>,
) -> Result<NewRecord, NoMemory>
    ensures key { IfOk result (λ what. what.key ≡ key_of asked.now) }
    ensures bytes { IfOk result (λ what. what.bytes ≡ record_bytes (record_of desk.now.kept.next at asked.now)) }
    ensures spelled { OnOk result (IsTrue (is_spelled (record_of desk.now.kept.next at asked.now))) }
    ensures fresh { IfOk result (λ what. IsFreshOf desk.now.kept.next at asked.now (record { gate = journal.now.gate; length = length what.bytes }) what.fresh) }
{
    let number = desk.next();
    let bytes = asked.bytes(alloc, number, at)?;
    match asked.placed(alloc, number, journal.next_place(&bytes)) {
        Ok((key, fresh)) => Ok(NewRecord { key, bytes, fresh }),
        Err(NoMemory) => {
            drop(bytes);
            Err(NoMemory)
        }
    }
}
