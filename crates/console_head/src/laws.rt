//! What the definitions of requests imply. These functions do nothing: their contracts are laws of the definitions.
ghost use Rattle.std.specs.Prelude.{◌≡◌, ◌<◌, ◌≤◌, List, ℕ, ◌++◌, length, take, drop, Ok, Some, None};
ghost use Rattle.console_head.specs.declared.lines.Head.{Head};
ghost use Rattle.console_head.specs.declared.request.TheConstants.{MOST_BODY};
ghost use Rattle.console_head.specs.Lines.{head_of};
ghost use Rattle.console_head.specs.Request.{Says, Stage};

/// Bytes are one thing: a request, not yet one, or refused for one reason.
pub fn bytes_are_one_thing()
    ensures { (bytes : List ℕ) → (a b : Stage) → Says bytes a → Says bytes b → a ≡ b }
{}

/// A request, and a refusal, stays what it is when more bytes come: so the pieces in which bytes come do not matter.
pub fn what_is_decided_stays()
    ensures { (bytes more : List ℕ) → (stage : Stage) → Says bytes stage → (stage ≡ Ok None → ⊥) → Says (bytes ++ more) stage }
{}

/// Bytes that are not yet a request are fewer than the largest head and the largest body have together: no session keeps more. Where their
/// head is not whole they are fewer than the largest head; else what follows the head is less than the largest body.
pub fn what_waits_is_bounded()
    ensures both { (bytes : List ℕ) → Says bytes (Ok None) → length bytes < 4210688 }
    ensures head { (bytes : List ℕ) → Says bytes (Ok None) → head_of (take 16384 bytes) ≡ None → length bytes < 16384 }
    ensures body { (bytes : List ℕ) (first : Head) → Says bytes (Ok None) → head_of (take 16384 bytes) ≡ Some first →
        (first.size ≤ 16384) × (length (drop first.size bytes) < MOST_BODY) }
{}
