//! Cycles, trials of them, and withdrawals, by workers who pass a gate. Each tells its answer as a number.
ghost use Rattle.std.specs.Prelude.{◌≡◌, ◌<◌, IfOk, IsTrue};
ghost use Rattle.verb_core.specs.declared.conf.House.{House};
ghost use Rattle.repair_desk.specs.Repairs.{are_known};

use crate::answers::{of_cycle, of_withdraw};
use box_store::Steps;
use std::alloc::Global;
use std::marker::Brand;
use std::sync::ledger::{Blank, Ledger};
use std::test::Fail;
use std::thread::Threads;
use time_desk::Desk;
use undo_base::{Name, Numbers};
use undo_outside::{Gate, MemDisk};
use verb_bytes::{Acts, CycleAsk, Replaces};
use verb_core::Act;

/// The moment of each cycle.
const NOW: u64 = 1105092000;

/// A key, a point, the numbers of items that are left out, and whether an act comes in.
pub(crate) type Asked = (&'static str, u32, &'static [u32], bool);

/// The same with acts that each house can do.
fn ask_with(alloc: Global, asked: Asked, inserts: Acts) -> Result<CycleAsk, Fail>
    requires { (house : House) → IsTrue (are_known house inserts) }
    ensures { IfOk result (λ ask. (house : House) → IsTrue (are_known house ask.inserts)) }
{
    let key = Name::read(alloc, asked.0.as_bytes())?;
    let drops = Numbers::from_vec(Vec::from_slice(alloc, asked.2)?);
    Ok(CycleAsk {
        key,
        point: asked.1,
        drops,
        replaces: Replaces::new(alloc),
        inserts,
    })
}

/// An act that drops an alias which is not there.
fn no_alias(alloc: Global) -> Result<Acts, Fail>
    ensures { IfOk result (λ acts. (house : House) → IsTrue (are_known house acts)) }
{
    let mut acts = Acts::new(alloc);
    acts.push(Act::DropAlias {
        local: Name::read(alloc, b"nobody")?,
    })?;
    Ok(acts)
}

fn ask(alloc: Global, asked: Asked) -> Result<CycleAsk, Fail>
    ensures { IfOk result (λ ask. (house : House) → IsTrue (are_known house ask.inserts)) }
{
    if asked.3 {
        let acts = no_alias(alloc)?;
        return ask_with(alloc, asked, acts);
    }
    ask_with(alloc, asked, Acts::new(alloc))
}

fn cycled_by<R: Threads + Sync, G: Gate, L: Ledger>(
    rt: &R,
    alloc: Global,
    desk: &mut Desk<MemDisk>,
    ask: CycleAsk,
    gate: &G,
    blank: Blank,
) -> u32
    requires name { blank.name ≡ L.name }
    requires parts { blank.parts ≡ L.parts }
    requires some { 0 < blank.parts }
    requires known { (house : House) → IsTrue (are_known house ask.inserts) }
{
    let mut steps: Steps<L> = Steps::new(blank);
    of_cycle(desk.cycle(rt, alloc, NOW, ask, gate, &mut steps))
}

/// Asks for a cycle.
pub(crate) fn cycled<R: Threads + Sync, G: Gate>(
    rt: &R,
    alloc: Global,
    desk: &mut Desk<MemDisk>,
    asked: Asked,
    gate: &G,
) -> Result<u32, Fail> {
    let ask = ask(alloc, asked)?;
    Ok(cycled_by::<R, G, Brand>(rt, alloc, desk, ask, gate, Blank::new(1)))
}

/// Tries a cycle.
pub(crate) fn tried<R: Threads + Sync, G: Gate>(
    rt: &R,
    alloc: Global,
    desk: &mut Desk<MemDisk>,
    asked: Asked,
    gate: &G,
) -> Result<u32, Fail> {
    let ask = ask(alloc, asked)?;
    let told = of_cycle(desk.try_cycle(rt, alloc, NOW, &ask, gate));
    drop(ask);
    Ok(told)
}

fn withdrawn_by<R: Threads + Sync, G: Gate, L: Ledger>(
    rt: &R,
    alloc: Global,
    desk: &mut Desk<MemDisk>,
    key: &Name,
    of: u32,
    gate: &G,
    blank: Blank,
) -> u32
    requires name { blank.name ≡ L.name }
    requires parts { blank.parts ≡ L.parts }
    requires some { 0 < blank.parts }
{
    let mut steps: Steps<L> = Steps::new(blank);
    of_withdraw(desk.withdraw(rt, alloc, NOW, key, of, gate, &mut steps))
}

/// Takes the cycle of a number back.
pub(crate) fn withdrawn<R: Threads + Sync, G: Gate>(
    rt: &R,
    alloc: Global,
    desk: &mut Desk<MemDisk>,
    key: &str,
    of: u32,
    gate: &G,
) -> Result<u32, Fail> {
    let key = Name::read(alloc, key.as_bytes())?;
    let told = withdrawn_by::<R, G, Brand>(rt, alloc, desk, &key, of, gate, Blank::new(1));
    drop(key);
    Ok(told)
}
