//! What workers pass: a gate that holds one item for another, and one that notes the items' numbers.
use std::alloc::Global;
use std::sync::atomic::{AtomicBool, AtomicU64, Ordering};
use std::test::Fail;
use std::thread;
use undo_outside::Gate;

/// For how many turns an item is held at most.
const TURNS: u32 = 10_000_000;

/// Waits until it is set, for so many turns at most: whether it was.
fn wait_for(set: &AtomicBool) -> bool {
    for _ in 0..TURNS {
        if set.load(Ordering::SeqCst) {
            return true;
        }
        thread::yield_now();
    }
    false
}

/// Holds an item until a later one has passed. The later one passes once the first is held, so that it doesn't come first.
#[derive(Drop)]
pub(crate) struct Holding {
    first: u32,
    later: u32,
    held: AtomicBool,
    passed: AtomicBool,
    seen: AtomicBool,
}

impl Holding {
    /// By their numbers.
    pub(crate) fn new(first: u32, later: u32) -> Holding {
        Holding {
            first,
            later,
            held: AtomicBool::new(false),
            passed: AtomicBool::new(false),
            seen: AtomicBool::new(false),
        }
    }

    /// The first waits, if the later one hasn't passed yet.
    fn hold(&self) {
        if self.passed.load(Ordering::SeqCst) {
            return;
        }
        self.held.store(true, Ordering::SeqCst);
        if wait_for(&self.passed) {
            self.seen.store(true, Ordering::SeqCst);
        }
    }

    /// The later one passes.
    fn let_pass(&self) {
        wait_for(&self.held);
        self.passed.store(true, Ordering::SeqCst);
    }

    /// Whether the first was held and then saw the later one pass.
    pub(crate) fn held_and_saw(&self) -> bool {
        self.held.load(Ordering::SeqCst) && self.seen.load(Ordering::SeqCst)
    }
}

impl Gate for Holding {
    fn pass(&self, number: u32) {
        if number == self.first {
            self.hold();
        }
        if number == self.later {
            self.let_pass();
        }
    }
}

/// Notes how often each of the first numbers passed.
#[derive(Drop)]
pub(crate) struct Noting {
    times: Vec<AtomicU64>,
}

impl Noting {
    /// For numbers below a count.
    pub(crate) fn below(alloc: Global, count: u32) -> Result<Noting, Fail> {
        let mut times = Vec::new(alloc);
        for _ in 0..count {
            times.push(AtomicU64::new(0))?;
        }
        Ok(Noting { times })
    }

    /// Whether exactly the numbers from the first on and below the end passed, once each.
    pub(crate) fn passed_within(&self, first: u32, end: u32) -> bool {
        let mut all = true;
        for (number, times) in self.times.iter().enumerate() {
            let wanted = if (first as usize) <= number && number < end as usize {
                1
            } else {
                0
            };
            all = all && times.load(Ordering::SeqCst) == wanted;
        }
        all
    }
}

impl Gate for Noting {
    fn pass(&self, number: u32) {
        if let Some(times) = self.times.get(number as usize) {
            times.fetch_add(1, Ordering::SeqCst);
        }
    }
}
