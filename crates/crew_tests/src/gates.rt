//! Gates that hold an item, and that note which passed.
use std::alloc::Global;
use std::sync::atomic::{AtomicBool, AtomicU32, Ordering};
use std::test::Fail;
use std::thread;
use undo_outside::Gate;

/// For how many turns an item is held at most.
const TURNS: u32 = 10_000_000;

/// Waits until it is set, for so many turns at most: whether it was.
fn wait_for(set: &AtomicBool) -> bool {
    for _ in 0..TURNS {
        if set.load(Ordering::SeqCst) {
            return true;
        }
        thread::yield_now();
    }
    false
}

/// Holds an item until a later one has passed. The later one passes once the first is held, so that it doesn't come first.
#[derive(Drop)]
pub(crate) struct Holding {
    first: u32,
    later: u32,
    held: AtomicBool,
    passed: AtomicBool,
    seen: AtomicBool,
}

impl Holding {
    /// By their numbers.
    pub(crate) fn new(first: u32, later: u32) -> Holding {
        Holding {
            first,
            later,
            held: AtomicBool::new(false),
            passed: AtomicBool::new(false),
            seen: AtomicBool::new(false),
        }
    }

    /// The first waits, if the later one hasn't passed yet.
    fn hold(&self) {
        if self.passed.load(Ordering::SeqCst) {
            return;
        }
        self.held.store(true, Ordering::SeqCst);
        if wait_for(&self.passed) {
            self.seen.store(true, Ordering::SeqCst);
        }
    }

    /// The later one passes.
    fn let_pass(&self) {
        wait_for(&self.held);
        self.passed.store(true, Ordering::SeqCst);
    }

    /// Whether the first was held and then saw the later one pass.
    pub(crate) fn held_and_saw(&self) -> bool {
        self.held.load(Ordering::SeqCst) && self.seen.load(Ordering::SeqCst)
    }
}

impl Gate for Holding {
    fn pass(&self, number: u32) {
        if number == self.first {
            self.hold();
        }
        if number == self.later {
            self.let_pass();
        }
    }
}

/// Counts how often each item passes.
#[derive(Drop)]
pub(crate) struct Counting {
    counts: Vec<AtomicU32>,
}

impl Counting {
    /// For items whose numbers are below the given one.
    pub(crate) fn new(alloc: Global, end: u32) -> Result<Counting, Fail> {
        let mut counts = Vec::new(alloc);
        for _ in 0..end {
            counts.push(AtomicU32::new(0))?;
        }
        Ok(Counting { counts })
    }

    /// Whether exactly the items from the first number on and below the second passed, once each.
    pub(crate) fn passed_once(&self, from: u32, end: u32) -> bool {
        let mut all = true;
        for (number, count) in self.counts.iter().enumerate() {
            let wanted = if (from as usize) <= number && number < end as usize {
                1
            } else {
                0
            };
            all = all && count.load(Ordering::SeqCst) == wanted;
        }
        all
    }
}

impl Gate for Counting {
    fn pass(&self, number: u32) {
        if let Some(count) = self.counts.get(number as usize) {
            count.fetch_add(1, Ordering::SeqCst);
        }
    }
}
