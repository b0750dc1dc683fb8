//! The seats that may have something, in the order in which they are visited.
//!
//! Who is told of is called, once, and stays called until a visit at which nothing came and nothing was taken. By then each of
//! its calls had found no more: what is told comes at a change alone. What is sent a string, is closed, or has just come is
//! called too. An event may be spurious: that visit finds nothing.
//!
//! In a round come the ports, where somebody may wait: the system told of one, a seat became free, or a second has passed. One at
//! which connections wait stays next until none does. Then comes each that was called when the round began, once, in the order of
//! the calls. Before them come those that are told of in the round and were not active in it, and of these first who was not
//! active in the last one either. So whoever was silent waits for one event, and not for a
//! round, and who is active in each has one event in each. In each millisecond the system is asked without waiting. Each second all seats are gone through,
//! and those visited whose connection ends, so that they are given up in time. Each eighth time all others are visited too, so
//! that something of which the system did not tell would be found all the same.
ghost use Rattle.std.specs.Prelude.{◌≡◌, ◌∷◌, [], IfNone, IfSome};
ghost use Rattle.host_outside.specs.Queue.{Adds, Wakes, all_of, due_of, is_calm, is_quiet};

use std::alloc::Global;
use std::collections::VecDeque;
use undo_base::NoMemory;

/// What is known of a place.
#[derive(Drop)]
struct Mark {
    /// It stands in the queue.
    is_called: bool,
    /// The last round in which it was active.
    active: u64,
}

/// A queue of places, each once, that is gone through in rounds: who stands in it as a round begins is visited in it.
#[derive(Drop)]
pub(crate) struct Queue {
    /// Those that were active neither in this round nor in the last one, and are visited before all others, still in this one.
    quiet: VecDeque<usize>,
    /// Those that were not active in this round, and are visited before the rest, still in this one.
    first: VecDeque<usize>,
    rest: VecDeque<usize>,
    /// So many of the rest are still to be visited in this round.
    due: usize,
    /// The number of this round.
    round: u64,
    marks: Vec<Mark>,
}

impl Queue {
    /// Of no places yet.
    pub(crate) fn new(alloc: Global) -> Queue
        ensures { all_of result ≡ [] }
    {
        Queue {
            quiet: VecDeque::new(alloc),
            first: VecDeque::new(alloc),
            rest: VecDeque::new(alloc),
            due: 0,
            round: 0,
            marks: Vec::new(alloc),
        }
    }

    /// Takes the memory for so many places, from 0 on.
    pub(crate) fn make(&mut self, count: usize) -> Result<(), NoMemory>
        ensures { all_of self.new ≡ all_of self.old }
    {
        self.quiet.reserve(count)?;
        self.first.reserve(count)?;
        self.rest.reserve(count)?;
        self.marks = marks_of(*self.marks.allocator(), count)?;
        Ok(())
    }

    /// Whether nobody stands in it.
    pub(crate) fn is_empty(&self) -> bool
        ensures { result ≡ is_calm self.now }
    {
        self.quiet.is_empty() && self.first.is_empty() && self.rest.is_empty()
    }

    /// Whether a place stands in it.
    pub(crate) fn has(&self, place: usize) -> bool {
        match self.marks.get(place) {
            Some(mark) => mark.is_called,
            None => false,
        }
    }

    /// A place is visited in the next round, behind those that are called already.
    pub(crate) fn call(&mut self, place: usize)
        ensures { self.new ≡ record self.old { rest = self.new.rest; marks = self.new.marks } }
    {
        if !self.has(place) {
            let is_called = self.push(place);
            self.mark(place, is_called);
        }
    }

    /// A place has just been active: there may be more.
    pub(crate) fn mark_active(&mut self, place: usize) {
        let round = self.round;
        if let Some(mark) = self.marks.get_mut(place) {
            mark.active = round;
        }
        self.call(place);
    }

    /// There is something at a place. One that was not active in this round comes in it still, and first where it was not in
    /// the last one either.
    pub(crate) fn wake(&mut self, place: usize)
        ensures { Wakes place self.old self.new }
    {
        if self.has(place) || self.was_active(place) {
            self.call(place);
        } else {
            let is_called = self.push_early(place);
            self.mark(place, is_called);
        }
    }

    /// Adds a place before the rest, for this round. Answers whether there was memory for it.
    fn push_early(&mut self, place: usize) -> bool
        ensures order { Wakes place self.old self.new }
        ensures marks { self.new.marks ≡ self.old.marks }
    {
        if self.was_quiet(place) {
            self.push_quiet(place)
        } else {
            self.push_first(place)
        }
    }

    /// It was active neither in this round nor in the last one.
    fn was_quiet(&self, place: usize) -> bool
        ensures { result ≡ is_quiet place self.now }
    {
        match self.marks.get(place) {
            Some(mark) => mark.active < self.round.saturating_sub(1),
            None => false,
        }
    }

    fn was_active(&self, place: usize) -> bool {
        match self.marks.get(place) {
            Some(mark) => mark.active >= self.round,
            None => false,
        }
    }

    fn mark(&mut self, place: usize, is_called: bool)
        ensures { self.new ≡ record self.old { marks = self.new.marks } }
    {
        if let Some(mark) = self.marks.get_mut(place) {
            mark.is_called = is_called;
        }
    }

    /// Adds a place behind all others, for the next round. Answers whether there was memory for it.
    fn push(&mut self, place: usize) -> bool
        ensures rest { Adds result place self.old.rest.items self.new.rest.items }
        ensures others { self.new ≡ record self.old { rest = self.new.rest } }
    {
        self.rest.push_back(place).is_ok()
    }

    /// Adds a place behind others that were quiet, for this round. Answers whether there was memory for it.
    fn push_quiet(&mut self, place: usize) -> bool
        ensures quiet { Adds result place self.old.quiet.items self.new.quiet.items }
        ensures others { self.new ≡ record self.old { quiet = self.new.quiet } }
    {
        self.quiet.push_back(place).is_ok()
    }

    /// Adds a place before the rest, for this round. Answers whether there was memory for it.
    fn push_first(&mut self, place: usize) -> bool
        ensures first { Adds result place self.old.first.items self.new.first.items }
        ensures others { self.new ≡ record self.old { first = self.new.first } }
    {
        self.first.push_back(place).is_ok()
    }

    /// Whether a place is left for this round.
    pub(crate) fn is_due(&self) -> bool {
        self.due > 0 || !self.first.is_empty() || !self.quiet.is_empty()
    }

    /// Takes out the next place of this round, if there is one left.
    pub(crate) fn next(&mut self) -> Option<usize>
        ensures some { IfSome result (λ place. due_of self.old ≡ place ∷ due_of self.new) }
        ensures none { IfNone result (due_of self.old ≡ []) }
    {
        let place = self.pop()?;
        self.mark(place, false);
        Some(place)
    }

    fn pop(&mut self) -> Option<usize>
        ensures some { IfSome result (λ place. due_of self.old ≡ place ∷ due_of self.new) }
        ensures none { IfNone result (due_of self.old ≡ []) }
    {
        match self.quiet.pop_front() {
            Some(place) => Some(place),
            None => self.pop_of_first(),
        }
    }

    /// The next place of those that were not quiet.
    fn pop_of_first(&mut self) -> Option<usize>
        requires { self.old.quiet.items ≡ [] }
        ensures some { IfSome result (λ place. due_of self.old ≡ place ∷ due_of self.new) }
        ensures none { IfNone result (due_of self.old ≡ []) }
    {
        match self.first.pop_front() {
            Some(place) => Some(place),
            None => self.pop_of_rest(),
        }
    }

    /// The next place of the rest, if it is due in this round.
    fn pop_of_rest(&mut self) -> Option<usize>
        requires { (self.old.quiet.items ≡ []) × (self.old.first.items ≡ []) }
        ensures some { IfSome result (λ place. due_of self.old ≡ place ∷ due_of self.new) }
        ensures none { IfNone result (due_of self.old ≡ []) }
    {
        if self.due == 0 {
            return None;
        }
        self.due -= 1;
        self.rest.pop_front()
    }

    /// Whoever stands in it now is visited in this round.
    pub(crate) fn begin_round(&mut self)
        ensures due { due_of self.new ≡ all_of self.new }
        ensures kept { all_of self.new ≡ all_of self.old }
    {
        self.round = self.round.saturating_add(1);
        self.due = self.rest.len();
    }
}

/// Of so many places, none called yet.
fn marks_of(alloc: Global, count: usize) -> Result<Vec<Mark>, NoMemory> {
    let mut marks = Vec::new(alloc);
    for _ in 0..count {
        marks.push(Mark {
            is_called: false,
            active: 0,
        })?;
    }
    Ok(marks)
}
