//! The places of each level.
ghost use Rattle.std.specs.Prelude.{◌≡◌, ◌+◌, ◌-◌, ◌≤◌, ◌<◌, [], ◌∷◌, ◌++◌, length, IfOk, OnOk, IsTrue};
ghost use Rattle.replay_plan.specs.Placing.{grouped, highest};
ghost use Rattle.replay_plan.specs.Gathering.{with_place, rise_by_one};

use crate::Levels;
use std::alloc::Global;
use undo_base::{NoMemory, Numbers, Sequence};

fn alone(alloc: Global, place: u32) -> Result<Numbers, NoMemory>
    ensures { IfOk result (λ places. places ≡ place ∷ []) }
{
    let mut places = Sequence::new(alloc);
    places.push(place)?;
    Ok(places)
}

fn put_behind(alloc: Global, plan: &mut Vec<Numbers>, place: u32) -> Result<(), NoMemory>
    ensures { OnOk result (plan.new.items ≡ plan.old.items ++ (place ∷ []) ∷ []) }
{
    let places = alone(alloc, place)?;
    plan.push(places)?;
    Ok(())
}

/// With an item's place in its level, which may be the one behind the last.
fn put_place(alloc: Global, plan: &mut Vec<Numbers>, level: u32, place: u32) -> Result<(), NoMemory>
    requires first { 1 ≤ level }
    requires next { level ≤ length plan.old.items + 1 }
    ensures { OnOk result (plan.new.items ≡ with_place (level - 1) place plan.old.items) }
{
    let index = level as usize - 1;
    if index < plan.len() {
        plan[index].push(place)?;
        return Ok(());
    }
    put_behind(alloc, plan, place)
}

/// The places of each level from 1 up to the highest.
pub(crate) fn gathered(alloc: Global, levels: &[u32]) -> Result<Levels, NoMemory>
    requires many { length levels.now < 4294967295 }
    requires rise { IsTrue (rise_by_one 0 levels.now) }
    ensures { IfOk result (λ plan. plan ≡ grouped levels.now) }
{
    let mut plan = Vec::new(alloc);
    for place in 0..levels.len() {
        put_place(alloc, &mut plan, levels[place], place as u32)?;
    }
    Ok(Sequence::from_vec(plan))
}
