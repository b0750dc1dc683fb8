//! Heads as a whole, read by `httparse`.
ghost use Rattle.std.specs.Prelude.{◌≡◌, ◌≤◌, List, ℕ, All, length, map, take, IfSome, IfNone};
ghost use Rattle.httparse.specs.Grammar.{RequestHead};
ghost use Rattle.httparse.specs.Spans.{IsHeaderWithin, IsRequestAt, IsRequestWithin};
ghost use Rattle.console_head.specs.Request.{IsWhole};

use httparse::Status;
use httparse::spans::{HeaderSpan, RequestSpans, parse_request};

/// The parts of the head that a text is as a whole, if it is one with room for its headers.
pub fn read_whole(text: &[u8], headers: &mut [HeaderSpan]) -> Option<RequestSpans>
    ensures found { IfSome result (λ parts. ((h : RequestHead) × IsWhole text.now h × IsRequestAt text.now headers.new parts h) × IsRequestWithin text.now headers.new parts) }
    ensures refused { IfNone result ((h : RequestHead) → IsWhole text.now h → length h.fields ≤ length headers.old → ⊥) }
{
    match parse_request(text, headers) {
        Ok(Status::Complete(parts)) => {
            if parts.len == text.len() {
                Some(parts)
            } else {
                None
            }
        }
        _ => None,
    }
}
