//! The text of a plan.
ghost use Rattle.std.specs.Prelude.{◌≡◌, ◌<◌, ◌++◌, ◌∷◌, [], length, nat_lt, decimal, slice_index, IfOk, OnOk, IsTrue};
ghost use Rattle.std.specs.List.{list_all};
ghost use Rattle.replay_plan.specs.Lines.{are_places, number_words, level_line, lines_from, text_of_levels};

use crate::Levels;
use std::alloc::Global;
use undo_base::{NoMemory, Numbers, Text};

fn push_number(alloc: Global, out: &mut Text, number: u32) -> Result<(), NoMemory>
    ensures { OnOk result (out.new ≡ out.old ++ decimal number) }
{
    let digits = format!(in alloc; "{number}")?;
    out.extend(digits.as_bytes())
}

fn push_word(alloc: Global, out: &mut Text, number: u32) -> Result<(), NoMemory>
    ensures { OnOk result (out.new ≡ out.old ++ 32 ∷ decimal number) }
{
    out.extend(b" ")?;
    push_number(alloc, out, number)
}

fn push_words(
    alloc: Global,
    out: &mut Text,
    numbers: &[u32],
    places: &[u32],
) -> Result<(), NoMemory>
    requires { IsTrue (are_places numbers.now places.now) }
    ensures { OnOk result (out.new ≡ out.old ++ number_words numbers.now places.now) }
{
    for place in places {
        push_word(alloc, out, numbers[*place as usize])?;
    }
    Ok(())
}

fn push_level(
    alloc: Global,
    out: &mut Text,
    level: usize,
    numbers: &[u32],
    places: &[u32],
) -> Result<(), NoMemory>
    requires { IsTrue (are_places numbers.now places.now) }
    ensures { OnOk result (out.new ≡ out.old ++ level_line numbers.now level places.now) }
{
    let front = format!(in alloc; "level {level}:")?;
    out.extend(front.as_bytes())?;
    push_words(alloc, out, numbers, places)?;
    out.extend(b"\n")
}

/// The text of a plan whose items have these numbers: a line for each level.
pub fn plan_text(alloc: Global, plan: &Levels, numbers: &Numbers) -> Result<Text, NoMemory>
    requires { IsTrue (list_all (are_places numbers.now) plan.now) }
    ensures { IfOk result (λ text. text ≡ text_of_levels plan.now numbers.now) }
{
    let mut out = Text::new(alloc);
    let mut level: usize = 1;
    let levels = plan.as_slice();
    for places in levels {
        push_level(
            alloc,
            &mut out,
            level,
            numbers.as_slice(),
            places.as_slice(),
        )?;
        level += 1;
    }
    Ok(out)
}
