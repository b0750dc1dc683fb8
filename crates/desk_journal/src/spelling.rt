//! The bytes of records.
ghost use Rattle.std.specs.Prelude.{◌≡◌, IsTrue, IfOk, OnOk};
ghost use Rattle.verb_bytes.specs.declared.journal.JournalRecord.TheVariants.{Format, Operator, Cycle, Upgrade, Withdraw};
ghost use Rattle.verb_bytes.specs.declared.journal.JournalRecord.{JournalRecord as TheRecord};
ghost use Rattle.verb_bytes.specs.Spelling.{record_bytes};
ghost use Rattle.verb_bytes.specs.Writing.{Encodes};
ghost use Rattle.desk_journal.specs.Records.{is_spelled};

use std::alloc::Global;
use undo_base::{Copies, Name, NoMemory, Text};
use verb_bytes::{
    CycleAsk, JournalRecord, Unwritten, spell_act, spell_cycle, spell_record, spell_upgrade,
    spell_withdraw,
};
use verb_core::{Act, Conf, House};

/// Bytes that were written. Those of a record without a spelling find no memory.
pub fn written(bytes: Result<Text, Unwritten>) -> Result<Text, NoMemory>
    ensures spelled { (what : TheRecord) → Encodes what bytes → OnOk result (IsTrue (is_spelled what)) }
    ensures bytes { (what : TheRecord) → Encodes what bytes → IfOk result (λ text. text ≡ record_bytes what) }
{
    match bytes {
        Ok(bytes) => Ok(bytes),
        Err(_) => Err(NoMemory),
    }
}

/// The bytes of the record of an operator's act. One without a spelling finds no memory.
pub fn act_bytes(alloc: Global, number: u32, at: u64, act: &Act) -> Result<Text, NoMemory>
    ensures spelled { OnOk result (IsTrue (is_spelled (Operator number at act.now))) }
    ensures bytes { IfOk result (λ text. text ≡ record_bytes (Operator number at act.now)) }
{
    written(spell_act(alloc, number, at, act))
}

/// The same of a cycle.
pub fn cycle_bytes(alloc: Global, number: u32, at: u64, ask: &CycleAsk) -> Result<Text, NoMemory>
    ensures spelled { OnOk result (IsTrue (is_spelled (Cycle number at ask.now))) }
    ensures bytes { IfOk result (λ text. text ≡ record_bytes (Cycle number at ask.now)) }
{
    written(spell_cycle(alloc, number, at, ask))
}

/// The same of an upgrade.
pub fn upgrade_bytes(alloc: Global, at: u64) -> Result<Text, NoMemory>
    ensures spelled { OnOk result (IsTrue (is_spelled (Upgrade at))) }
    ensures bytes { IfOk result (λ text. text ≡ record_bytes (Upgrade at)) }
{
    written(spell_upgrade(alloc, at))
}

/// The same of a withdrawal.
pub fn withdraw_bytes(
    alloc: Global,
    number: u32,
    at: u64,
    key: &Name,
    of: u32,
) -> Result<Text, NoMemory>
    ensures spelled { OnOk result (IsTrue (is_spelled (Withdraw number at key.now of))) }
    ensures bytes { IfOk result (λ text. text ≡ record_bytes (Withdraw number at key.now of)) }
{
    written(spell_withdraw(alloc, number, at, key, of))
}

/// The bytes of a record, where it has a spelling.
fn record_text(alloc: Global, what: &JournalRecord) -> Result<Text, NoMemory>
    ensures spelled { OnOk result (IsTrue (is_spelled what.now)) }
    ensures bytes { IfOk result (λ text. text ≡ record_bytes what.now) }
{
    written(spell_record(alloc, what))
}

/// The first record.
fn house_record(alloc: Global, house: &House, conf: &Conf) -> Result<JournalRecord, NoMemory>
    ensures { IfOk result (λ what. what ≡ Format house.now conf.now) }
{
    let house = house.copy(alloc)?;
    match conf.copy(alloc) {
        Ok(conf) => Ok(JournalRecord::Format(house, conf)),
        Err(NoMemory) => {
            drop(house);
            Err(NoMemory)
        }
    }
}

/// The bytes of the first record. One without a spelling, which has more names than four bytes count, finds no memory.
pub fn house_bytes(alloc: Global, house: &House, conf: &Conf) -> Result<Text, NoMemory>
    ensures spelled { OnOk result (IsTrue (is_spelled (Format house.now conf.now))) }
    ensures bytes { IfOk result (λ text. text ≡ record_bytes (Format house.now conf.now)) }
{
    let what = house_record(alloc, house, conf)?;
    let bytes = record_text(alloc, &what);
    drop(what);
    bytes
}
