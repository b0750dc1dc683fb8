//! The items of a level, worked out by workers on the one store before it.
ghost use Rattle.std.specs.Prelude.{◌≡◌, ◌*◌, ◌<◌, ◌≤◌, ℕ, IfOk, OnOk, flat_map, length, map};
ghost use Rattle.std.specs.Result.{IsOk};
ghost use Rattle.std.specs.List.{AllByRecursion};
ghost use Rattle.verb_core.specs.Store.{IsValid};
ghost use Rattle.replay_crew.specs.Working.{CanMake, IsMade, IsRun, made_in, run_at, run_length};

use crate::made::{Made, Passed};
use box_store::Store;
use std::alloc::Global;
use std::thread::{Threads, map_indices};
use undo_base::NoMemory;
use undo_outside::Gate;
use verb_core::Resolved;

/// At most in how many runs a level is cut.
const MOST_RUNS: usize = 16;

/// What the item at a place does on a store, worked out behind the gate.
fn make<G: Gate>(
    alloc: Global,
    store: &Store,
    items: &[Resolved],
    gate: &G,
    place: u32,
) -> Result<Made, NoMemory>
    requires valid { IsValid store.now.store }
    requires can { CanMake store.now.store items.now place }
    ensures place { IfOk result (λ made. made.place ≡ place) }
    ensures made { IfOk result (λ made. IsMade store.now.store items.now made) }
{
    let what = &items[place as usize];
    let passed = Passed::through(gate, what.item.number);
    Made::behind(passed, alloc, store, what, place)
}

// ---- runs

/// How long a run of a level is: a sixteenth of the level's items, rounded up.
fn run_size(count: usize) -> usize
    ensures { result ≡ run_length count }
{
    count.div_ceil(MOST_RUNS)
}

/// In how many runs a level is cut, of which each has an item. The last may be shorter than the others.
fn run_count(count: usize) -> usize
    requires { 0 < count }
    ensures most { result ≤ 16 }
    ensures all { count ≤ result * run_length count }
    ensures each { (run : ℕ) → run < result → run * run_length count < count }
{
    count.div_ceil(run_size(count))
}

/// The places of one run of a level.
fn run_of(places: &[u32], run: usize) -> &[u32]
    requires { run * run_length (length places.now) ≤ length places.now }
    ensures { result.now ≡ run_at places.now run }
{
    let size = run_size(places.len());
    let (_, rest) = places.split_at(run * size);
    if rest.len() <= size {
        return rest;
    }
    let (here, _) = rest.split_at(size);
    here
}

/// What the items of one run of a level do on a store, one after the other.
fn make_run<G: Gate>(
    alloc: Global,
    store: &Store,
    items: &[Resolved],
    gate: &G,
    places: &[u32],
    run: usize,
) -> Result<Vec<Made>, NoMemory>
    requires valid { IsValid store.now.store }
    requires can { AllByRecursion (CanMake store.now.store items.now) places.now }
    requires within { run * run_length (length places.now) ≤ length places.now }
    ensures { IfOk result (λ made. IsRun store.now.store items.now places.now run made.items) }
{
    let here = run_of(places, run);
    let mut made = Vec::new(alloc);
    for place in here {
        made.push(make(alloc, store, items, gate, *place)?)?;
    }
    Ok(made)
}

/// What the runs made, joined in order.
fn joined(alloc: Global, runs: Vec<Result<Vec<Made>, NoMemory>>) -> Result<Vec<Made>, NoMemory>
    ensures joined { IfOk result (λ made. made.items ≡ flat_map made_in runs.items) }
    ensures each { OnOk result (AllByRecursion IsOk runs.items) }
{
    let mut made = Vec::new(alloc);
    for run in runs {
        let mut run = run?;
        made.append(&mut run)?;
    }
    Ok(made)
}

/// What the items of a level do on the store before it: worked out in at most 16 runs of equal length, each run by a worker.
/// For one item no thread is started.
pub(crate) fn make_level<R: Threads + Sync, G: Gate>(
    rt: &R,
    alloc: Global,
    store: &Store,
    items: &[Resolved],
    gate: &G,
    places: &[u32],
) -> Result<Vec<Made>, NoMemory>
    requires valid { IsValid store.now.store }
    requires can { AllByRecursion (CanMake store.now.store items.now) places.now }
    ensures places { IfOk result (λ made. map (λ m. m.place) made.items ≡ places.now) }
    ensures made { IfOk result (λ made. AllByRecursion (IsMade store.now.store items.now) made.items) }
{
    if places.len() <= 1 {
        return make_run(alloc, store, items, gate, places, 0);
    }
    let work = |run: usize| -> Result<Vec<Made>, NoMemory>
        requires { IsValid store.now.store × (run * run_length (length places.now) ≤ length places.now) × AllByRecursion (CanMake store.now.store items.now) places.now }
        ensures { IfOk result (λ made. IsRun store.entry.now.store items.entry.now places.entry.now run made.items) }
    { make_run(alloc, store, items, gate, places, run) };
    let runs = map_indices(rt, alloc, run_count(places.len()), &work)?;
    joined(alloc, runs)
}
