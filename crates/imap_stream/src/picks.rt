//! The messages that a set names (RFC 3501, 6.4.8 and 9: sequence-set).
//!
//! A range to `*` has the last number also where it begins beyond it (`UID 9:*` finds the last message), in a FETCH as in a
//! SEARCH. A range runs either way.
ghost use Rattle.std.specs.Prelude.{◌≡◌, ℕ, ◌+◌, ◌-◌, ◌^◌, ◌≤◌, ◌<◌, ◌++◌, List, true, false, length, min, max, slice_index, IfOk, OnOk};
ghost use Rattle.std.specs.List.Sorted.{IsNonDecreasingBy, IsStrictlyIncreasing};
ghost use Rattle.imap_stream.specs.Sets.{greatest_of, number_at, beyond, covered, first_beyond, places_in, run_from, picked, Picks};
ghost use Rattle.imap_stream.specs.Sets as spec;
ghost use Rattle.imap_stream.specs.Spans.{in_span, in_any, AreWithin, IsBelow, IsSpanOf, IsRangeSpan, SpansSet};

use std::alloc::Global;
use undo_base::{NoMemory, Places, Sequence, Uids};

/// A range of numbers, either way. None stands for the greatest number of the view.
#[derive(Clone, Copy, Debug, PartialEq, Eq)]
pub struct SetRange {
    pub from: Option<u32>,
    pub to: Option<u32>,
}

/// Ranges of numbers, in the order in which they are written.
pub type SetText = Sequence<SetRange>;

/// Why nothing is picked.
#[derive(Clone, Copy, Debug, PartialEq, Eq)]
pub enum PickRefused {
    /// The first sequence number that the view does not have, or 0 for `*` in an empty view.
    Number { given: u32 },
    NoMemory,
}

/// Places of a view, from one up to another that is not among them.
#[derive(Clone, Copy, Debug, PartialEq, Eq)]
pub struct Span {
    pub from: usize,
    pub to: usize,
}

/// The number at an end of a range.
fn end_at(greatest: u64, end: Option<u32>) -> u64
    ensures { result ≡ spec.end_at greatest end }
{
    match end {
        None => greatest,
        Some(number) => u64::from(number),
    }
}

/// The lower end of a range, where `*` is the greatest number.
pub fn lower_end(greatest: u64, range: SetRange) -> u64
    ensures { result ≡ min (spec.end_at greatest range.from) (spec.end_at greatest range.to) }
{
    end_at(greatest, range.from).min(end_at(greatest, range.to))
}

/// The upper end of a range, where `*` is the greatest number.
pub fn upper_end(greatest: u64, range: SetRange) -> u64
    ensures { result ≡ max (spec.end_at greatest range.from) (spec.end_at greatest range.to) }
{
    end_at(greatest, range.from).max(end_at(greatest, range.to))
}

/// The greatest UID of a view.
fn greatest(uids: &[u64]) -> u64
    ensures { result ≡ greatest_of true uids.now }
{
    match uids {
        [] => 0,
        [.., last] => *last,
    }
}

/// A sequence number that a view of so many messages does not have.
fn beyond_end(count: usize, end: Option<u32>) -> Option<u32>
    ensures { result ≡ beyond count end }
{
    match end {
        None => { if count == 0 { Some(0) } else { None } }
        Some(number) => {
            if count < number as usize {
                Some(number)
            } else {
                None
            }
        }
    }
}

/// The first sequence number of a range that a view of so many messages does not have.
fn beyond_range(count: usize, range: SetRange) -> Option<u32>
    ensures { result ≡ spec.beyond_range count range }
{
    match beyond_end(count, range.from) {
        Some(number) => Some(number),
        None => beyond_end(count, range.to),
    }
}

/// The first sequence number of a set that a view of so many messages does not have.
fn beyond_set(count: usize, set: &[SetRange]) -> Option<u32>
    ensures { result ≡ first_beyond count set.now }
{
    for range in set {
        if let Some(number) = beyond_range(count, *range) {
            return Some(number);
        }
    }
    None
}

/// How many UIDs of a view stand below a number.
fn below(uids: &[u64], number: u128) -> usize
    ensures within { result ≤ length uids.now }
    ensures point { IsStrictlyIncreasing uids.now → IsBelow number uids.now result }
{
    let mut low = 0;
    let mut high = uids.len();
    while low < high {
        let middle = low + (high - low) / 2;
        if u128::from(uids[middle]) < number {
            low = middle + 1;
        } else {
            high = middle;
        }
    }
    low
}

/// The places of the UIDs from one number to another.
fn uid_span(uids: &[u64], low: u64, high: u64) -> Span
    ensures within { result.to ≤ length uids.now }
    ensures places { IsStrictlyIncreasing uids.now → IsSpanOf (λ p. slice_index uids.now p) (length uids.now) low high result }
{
    Span {
        from: below(uids, u128::from(low)),
        to: below(uids, u128::from(high) + 1),
    }
}

/// The places of the sequence numbers from one to another.
fn number_span(count: usize, low: u64, high: u64) -> Span
    ensures within { result.to ≤ count }
    ensures places { IsSpanOf (λ p. p + 1) count low high result }
{
    Span {
        from: low.saturating_sub(1) as usize,
        to: (high as usize).min(count),
    }
}

/// The places that a range of UIDs covers.
fn uid_range(uids: &[u64], range: SetRange) -> Span
    ensures within { result.to ≤ length uids.now }
    ensures places { IsStrictlyIncreasing uids.now → IsRangeSpan (number_at true uids.now) (greatest_of true uids.now) (length uids.now) range result }
{
    let greatest = greatest(uids);
    uid_span(uids, lower_end(greatest, range), upper_end(greatest, range))
}

/// The places that a range of sequence numbers covers.
fn number_range(count: usize, range: SetRange) -> Span
    ensures within { result.to ≤ count }
    ensures places { IsRangeSpan (λ p. p + 1) count count range result }
{
    let greatest = count as u64;
    number_span(
        count,
        lower_end(greatest, range),
        upper_end(greatest, range),
    )
}

/// The places that each range of UIDs covers.
fn uid_spans(alloc: Global, uids: &[u64], set: &[SetRange]) -> Result<Vec<Span>, NoMemory>
    ensures within { IfOk result (λ spans. AreWithin (length uids.now) spans.items) }
    ensures places { IfOk result (λ spans. IsStrictlyIncreasing uids.now → SpansSet (number_at true uids.now) (greatest_of true uids.now) (length uids.now) set.now spans.items) }
{
    let mut spans = Vec::new(alloc);
    for range in set {
        spans.push(uid_range(uids, *range))?;
    }
    Ok(spans)
}

/// The places that each range of sequence numbers covers.
fn number_spans(alloc: Global, count: usize, set: &[SetRange]) -> Result<Vec<Span>, NoMemory>
    ensures within { IfOk result (λ spans. AreWithin count spans.items) }
    ensures places { IfOk result (λ spans. SpansSet (λ p. p + 1) count count set.now spans.items) }
{
    let mut spans = Vec::new(alloc);
    for range in set {
        spans.push(number_range(count, *range))?;
    }
    Ok(spans)
}

/// Puts spans in the order in which they begin.
fn sort(spans: &mut Vec<Span>)
    ensures sorted { IsNonDecreasingBy (λ (s : Span). s.from) spans.new.items }
    ensures same { (p : ℕ) → in_any spans.new.items p ≡ in_any spans.old.items p }
    ensures within { (n : ℕ) → AreWithin n spans.old.items → AreWithin n spans.new.items }
{
    spans.sort_unstable_by_key(|span| span.from);
}

/// Adds the places of a span.
fn push_places(places: &mut Places, from: usize, to: usize) -> Result<(), NoMemory>
    requires order { from ≤ to }
    requires most { to < 2 ^ 32 }
    ensures { OnOk result (places.new ≡ places.old ++ run_from from (to - from)) }
{
    for place in from..to {
        places.push(place as u32)?;
    }
    Ok(())
}

/// Adds the places of a span from where the next place may stand, and gives where the next may stand after them.
fn add_span(places: &mut Places, next: usize, span: Span) -> Result<usize, NoMemory>
    requires { span.to < 2 ^ 32 }
    ensures old { IfOk result (λ now. span.to ≤ max span.from next → (places.new ≡ places.old) × (now ≡ next)) }
    ensures new { IfOk result (λ now. max span.from next < span.to → (places.new ≡ places.old ++ run_from (max span.from next) (span.to - max span.from next)) × (now ≡ span.to)) }
{
    let from = span.from.max(next);
    if from >= span.to {
        return Ok(next);
    }
    push_places(places, from, span.to)?;
    Ok(span.to)
}

/// The places of all spans, rising, each once.
fn join(alloc: Global, spans: &[Span], count: usize) -> Result<Places, NoMemory>
    requires count { count < 2 ^ 32 }
    requires sorted { IsNonDecreasingBy (λ (s : Span). s.from) spans.now }
    requires within { AreWithin count spans.now }
    ensures { IfOk result (λ places. places ≡ places_in (in_any spans.now) 0 count) }
{
    let mut places = Places::new(alloc);
    let mut next = 0;
    for span in spans {
        next = add_span(&mut places, next, *span)?;
    }
    Ok(places)
}

/// The places of spans in a view of so many messages, rising, each once.
pub fn join_spans(alloc: Global, spans: Vec<Span>, count: usize) -> Result<Places, NoMemory>
    requires { AreWithin count spans.items }
    ensures { IfOk result (λ places. places ≡ places_in (in_any spans.items) 0 count) }
{
    if count >= u32::MAX as usize {
        return Err(NoMemory);
    }
    let mut spans = spans;
    sort(&mut spans);
    join(alloc, &spans, count)
}

/// The places of the messages whose UIDs a set covers.
fn uid_places(alloc: Global, set: &[SetRange], uids: &[u64]) -> Result<Places, NoMemory>
    ensures { IfOk result (λ places. IsStrictlyIncreasing uids.now → places ≡ picked set.now uids.now true) }
{
    let spans = uid_spans(alloc, uids, set)?;
    join_spans(alloc, spans, uids.len())
}

/// The places of the messages whose sequence numbers a set covers, of so many.
fn number_places(alloc: Global, set: &[SetRange], count: usize) -> Result<Places, NoMemory>
    ensures { IfOk result (λ places. places ≡ places_in (λ p. covered count set.now (p + 1)) 0 count) }
{
    let spans = number_spans(alloc, count, set)?;
    join_spans(alloc, spans, count)
}

/// The places of the messages that a set of sequence numbers names in a view of so many messages, rising, each once. It looks at
/// no UID: its time and memory grow as the set and as what is picked.
pub fn pick_numbers(alloc: Global, set: &SetText, count: usize) -> Result<Places, PickRefused>
    ensures { (uids : List ℕ) → length uids ≡ count → Picks set.now uids false result }
{
    let set = set.as_slice();
    if let Some(given) = beyond_set(count, set) {
        return Err(PickRefused::Number { given });
    }
    match number_places(alloc, set, count) {
        Ok(places) => Ok(places),
        Err(_) => Err(PickRefused::NoMemory),
    }
}

/// The places in a view of the messages that a set names, rising, each once. UIDs are to rise; by sequence number nothing is asked of them.
pub fn pick(alloc: Global, set: &SetText, uids: &Uids, by_uid: bool) -> Result<Places, PickRefused>
    ensures { (by_uid ≡ true → IsStrictlyIncreasing uids.now) → Picks set.now uids.now by_uid result }
{
    if !by_uid {
        return pick_numbers(alloc, set, uids.len());
    }
    match uid_places(alloc, set.as_slice(), uids.as_slice()) {
        Ok(places) => Ok(places),
        Err(_) => Err(PickRefused::NoMemory),
    }
}
