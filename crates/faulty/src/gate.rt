//! A gate that notes which items pass.
use std::alloc::Global;
use std::sync::atomic::{AtomicU64, Ordering};
use undo_base::{NoMemory, Text};
use undo_outside::Gate;

/// How often each of the first numbers passed.
#[derive(Drop)]
pub(crate) struct Noting {
    times: Vec<AtomicU64>,
}

impl Noting {
    /// For numbers below a count.
    pub(crate) fn below(alloc: Global, count: u32) -> Result<Noting, NoMemory> {
        let mut times = Vec::new(alloc);
        for _ in 0..count {
            times.push(AtomicU64::new(0))?;
        }
        Ok(Noting { times })
    }

    /// A line for each number that passed, rising, with how often it did.
    pub(crate) fn lines(&self, alloc: Global) -> Result<Text, NoMemory> {
        let mut text = Text::new(alloc);
        for (number, times) in self.times.iter().enumerate() {
            let count = times.load(Ordering::SeqCst);
            if count > 0 {
                text.extend(format!(in alloc; "passed {number} {count}\n")?.as_bytes())?;
            }
        }
        Ok(text)
    }
}

impl Gate for Noting {
    fn pass(&self, number: u32) {
        if let Some(times) = self.times.get(number as usize) {
            times.fetch_add(1, Ordering::SeqCst);
        }
    }
}
