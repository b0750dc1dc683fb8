//! The places of the messages whose UIDs a set names, found by halves in the view itself.
//!
//! The messages of a set are found in the view itself. Sequence numbers are places (`pick_numbers` of imap_stream is given how
//! many messages there are, and no UIDs), and a range of UIDs is two searches by halves. `pick` takes a list of UIDs for whoever
//! has one; that they rise is asked by UID alone.
ghost use Rattle.std.specs.Prelude.{◌≡◌, ◌+◌, ◌≤◌, true, length, slice_index, IfOk};
ghost use Rattle.imap_stream.specs.Sets.{greatest_of, number_at, picked};
ghost use Rattle.imap_stream.specs.Spans.{AreWithin, IsBelow, IsSpanOf, IsRangeSpan, SpansSet};
ghost use Rattle.imap_view.specs.Views.{is_in_order, uids_of};

use crate::messages::Known;
use imap_stream::{SetRange, Span, join_spans, lower_end, upper_end};
use std::alloc::Global;
use undo_base::{NoMemory, Places};

/// The greatest UID of a view.
fn greatest(view: &[Known]) -> u64
    ensures { result ≡ greatest_of true (uids_of view.now) }
{
    match view {
        [] => 0,
        [.., last] => last.uid,
    }
}

/// How many messages of a view have a UID below a number.
fn below(view: &[Known], number: u64) -> usize
    requires { is_in_order view.now ≡ true }
    ensures within { result ≤ length view.now }
    ensures point { IsBelow number (uids_of view.now) result }
{
    view.partition_point(|known| known.uid < number)
}

/// How many messages of a view have a UID up to a number.
fn up_to(view: &[Known], number: u64) -> usize
    requires { is_in_order view.now ≡ true }
    ensures within { result ≤ length view.now }
    ensures point { IsBelow (number + 1) (uids_of view.now) result }
{
    view.partition_point(|known| known.uid <= number)
}

/// The places of the UIDs from one number to another.
fn uid_span(view: &[Known], low: u64, high: u64) -> Span
    requires { is_in_order view.now ≡ true }
    ensures within { result.to ≤ length view.now }
    ensures places { IsSpanOf (λ p. slice_index (uids_of view.now) p) (length view.now) low high result }
{
    Span {
        from: below(view, low),
        to: up_to(view, high),
    }
}

/// The places that a range of UIDs covers.
fn uid_range(view: &[Known], range: SetRange) -> Span
    requires { is_in_order view.now ≡ true }
    ensures within { result.to ≤ length view.now }
    ensures places { IsRangeSpan (number_at true (uids_of view.now)) (greatest_of true (uids_of view.now)) (length view.now) range result }
{
    let greatest = greatest(view);
    uid_span(view, lower_end(greatest, range), upper_end(greatest, range))
}

/// The places that each range of UIDs covers.
fn uid_spans(alloc: Global, view: &[Known], set: &[SetRange]) -> Result<Vec<Span>, NoMemory>
    requires { is_in_order view.now ≡ true }
    ensures within { IfOk result (λ spans. AreWithin (length view.now) spans.items) }
    ensures places { IfOk result (λ spans. SpansSet (number_at true (uids_of view.now)) (greatest_of true (uids_of view.now)) (length view.now) set.now spans.items) }
{
    let mut spans = Vec::new(alloc);
    for range in set {
        spans.push(uid_range(view, *range))?;
    }
    Ok(spans)
}

/// The places of the messages whose UIDs a set covers, rising, each once. Each range takes as many steps as the number of messages
/// has digits; the memory grows as the set and as what is picked.
pub(crate) fn pick_uids(alloc: Global, view: &[Known], set: &[SetRange]) -> Result<Places, NoMemory>
    requires { is_in_order view.now ≡ true }
    ensures { IfOk result (λ places. places ≡ picked set.now (uids_of view.now) true) }
{
    let spans = uid_spans(alloc, view, set)?;
    join_spans(alloc, spans, view.len())
}
