//! A desk on an empty disk.
//!
//! `can_begin` (what a Format record may hold) is the definition of house_text over what a configuration's text gives, so the two
//! can't differ.
ghost use Rattle.std.specs.Prelude.{◌≡◌, ◌<◌, ◌∷◌, [], Some, false, Ok, Err, OnOk, IsTrue, IfOk, IfErr};
ghost use Rattle.verb_bytes.specs.declared.journal.JournalRecord.TheVariants.{Format};
ghost use Rattle.verb_bytes.specs.Spelling.{record_bytes};
ghost use Rattle.seal_log.specs.Log.{last_gate};
ghost use Rattle.store_kept.specs.Kept.{new_desk};
ghost use Rattle.house_text.specs.Beginning.{can_begin};
ghost use Rattle.desk_journal.specs.Making.{BeginsJournal, LooksEmpty, Makes};
ghost use Rattle.desk_journal.specs.Records.{state};

use crate::MakeFault;
use crate::spelling::house_bytes;
use seal_log::{Log, SealFault, format};
use std::alloc::Global;
use undo_base::{NoMemory, Text};
use undo_outside::Disk;
use verb_core::{Conf, House};

/// Looks whether a disk is empty.
fn check_empty<D: Disk>(disk: &mut D) -> Result<(), MakeFault>
    ensures { LooksEmpty (D.told disk.old) (D.told disk.new) result }
{
    match disk.len()? {
        0 => Ok(()),
        _ => Err(MakeFault::NotEmpty),
    }
}

/// A desk in memory, and the bytes of its first record.
fn first_parts(alloc: Global, house: House, conf: Conf) -> Result<(mail_desk::Desk, Text), NoMemory>
    requires { IsTrue (can_begin house conf) }
    ensures kept { IfOk result (λ parts. parts.0.kept ≡ new_desk house conf) }
    ensures state { OnOk result (state (Format house conf ∷ []) ≡ Some (new_desk house conf)) }
    ensures bytes { IfOk result (λ parts. parts.1 ≡ record_bytes (Format house conf)) }
{
    let bytes = match house_bytes(alloc, &house, &conf) {
        Ok(bytes) => bytes,
        Err(NoMemory) => {
            drop(house);
            drop(conf);
            return Err(NoMemory);
        }
    };
    match mail_desk::Desk::new(alloc, house, conf) {
        Ok(desk) => Ok((desk, bytes)),
        Err(NoMemory) => {
            drop(bytes);
            Err(NoMemory)
        }
    }
}

/// Formats an empty disk with a first record.
fn begin<D: Disk>(alloc: Global, disk: &mut D, head: &Text) -> Result<Log, MakeFault>
    requires { (D.told disk.old).size ≡ 0 }
    ensures { BeginsJournal head.now (D.told disk.old) (D.told disk.new) result }
{
    match format(alloc, disk, head.bytes()) {
        Ok(log) => Ok(log),
        Err(SealFault::Disk) => Err(MakeFault::Disk),
        Err(SealFault::NoMemory) => Err(MakeFault::NoMemory),
        Err(SealFault::Closed) => unreachable!(),
    }
}

/// The same beside the desk.
fn begin_with<D: Disk>(
    alloc: Global,
    disk: &mut D,
    desk: mail_desk::Desk,
    head: &Text,
) -> Result<(Log, mail_desk::Desk), MakeFault>
    requires { (D.told disk.old).size ≡ 0 }
    ensures desk { IfOk result (λ parts. parts.1 ≡ desk) }
    ensures begun { IfOk result (λ parts. BeginsJournal head.now (D.told disk.old) (D.told disk.new) (Ok parts.0)) }
    ensures why { IfErr result (λ fault. BeginsJournal head.now (D.told disk.old) (D.told disk.new) (Err fault)) }
{
    match begin(alloc, disk, head) {
        Ok(log) => Ok((log, desk)),
        Err(fault) => {
            drop(desk);
            Err(fault)
        }
    }
}

/// Makes the desk and its journal on a disk that is empty.
fn make_empty<D: Disk>(
    alloc: Global,
    disk: &mut D,
    house: House,
    conf: Conf,
) -> Result<(Log, mail_desk::Desk), MakeFault>
    requires begins { IsTrue (can_begin house conf) }
    requires empty { (D.told disk.old).size ≡ 0 }
    ensures kept { IfOk result (λ parts. parts.1.kept ≡ new_desk house conf) }
    ensures open { IfOk result (λ parts. parts.0.closed ≡ false) }
    ensures made { IfOk result (λ parts. Makes house conf (D.told disk.old) (D.told disk.new) (Ok (parts.1.kept, last_gate parts.0))) }
    ensures why { IfErr result (λ fault. Makes house conf (D.told disk.old) (D.told disk.new) (Err fault)) }
    ensures within { IfOk result (λ parts. last_gate parts.0 < (D.told disk.new).size) }
{
    match first_parts(alloc, house, conf) {
        Ok((desk, head)) => begin_with(alloc, disk, desk, &head),
        Err(NoMemory) => Err(MakeFault::NoMemory),
    }
}

/// Makes the desk and its journal.
pub fn make_parts<D: Disk>(
    alloc: Global,
    disk: &mut D,
    house: House,
    conf: Conf,
) -> Result<(Log, mail_desk::Desk), MakeFault>
    requires { IsTrue (can_begin house conf) }
    ensures kept { IfOk result (λ parts. parts.1.kept ≡ new_desk house conf) }
    ensures open { IfOk result (λ parts. parts.0.closed ≡ false) }
    ensures made { IfOk result (λ parts. Makes house conf (D.told disk.old) (D.told disk.new) (Ok (parts.1.kept, last_gate parts.0))) }
    ensures why { IfErr result (λ fault. Makes house conf (D.told disk.old) (D.told disk.new) (Err fault)) }
    ensures within { IfOk result (λ parts. last_gate parts.0 < (D.told disk.new).size) }
{
    match check_empty(disk) {
        Ok(()) => make_empty(alloc, disk, house, conf),
        Err(fault) => {
            drop(house);
            drop(conf);
            Err(fault)
        }
    }
}
