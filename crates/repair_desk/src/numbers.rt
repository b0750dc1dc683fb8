//! Sets of numbers: whether a number is one of them, in time that grows as the logarithm of how many there are.
ghost use Rattle.std.specs.Prelude.{◌≡◌, ℕ, [], ◌||◌, ◌==◌, IfOk, OnOk};
ghost use Rattle.repair_desk.specs.Repairs.{is_among};

use std::alloc::Global;
use std::collections::BTreeSet;
use std::marker::Model;
use undo_base::NoMemory;

/// Numbers, each once.
#[derive(Drop)]
pub struct NumberSet {
    numbers: BTreeSet<u32>,
}

impl Model for NumberSet {
    ghost use Rattle.std.specs.Prelude.{List, ℕ};

    ghost Value = { List ℕ };

    ghost view = { λ s. s.numbers.keys };
}

impl NumberSet {
    /// No numbers, which takes no memory.
    pub fn new(alloc: Global) -> NumberSet
        ensures { result ≡ [] }
    {
        NumberSet {
            numbers: BTreeSet::new(alloc),
        }
    }

    /// The numbers of a list.
    pub fn of(alloc: Global, numbers: &[u32]) -> Result<NumberSet, NoMemory>
        ensures { IfOk result (λ set. (n : ℕ) → is_among set n ≡ is_among numbers.now n) }
    {
        let mut set = NumberSet::new(alloc);
        for number in numbers {
            set.insert(*number)?;
        }
        Ok(set)
    }

    /// With one more number.
    pub fn insert(&mut self, number: u32) -> Result<(), NoMemory>
        ensures { OnOk result ((n : ℕ) → is_among self.new n ≡ (is_among self.old n || (n == number))) }
    {
        self.numbers.insert(number)?;
        Ok(())
    }

    /// Whether the number is one of them.
    pub fn contains(&self, number: u32) -> bool
        ensures { result ≡ is_among self.now number }
    {
        self.numbers.contains(&number)
    }
}
