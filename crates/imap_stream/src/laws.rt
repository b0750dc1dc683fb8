//! What a stream gives, in the standard's words.
ghost use Rattle.std.specs.Prelude.{◌≡◌, ℕ, List};
ghost use Rattle.imap_stream.specs.declared.next.Next.{Next};
ghost use Rattle.imap_stream.specs.Commands.{said_of};
ghost use Rattle.imap_stream.specs.Streams.{Entry, Rest, Splits, IsReading};

/// A stream is commands, made of lines and the literals that they announce, or bad lines, and then a rest in which
/// none is whole. It is so in one way, and what these give is what `cut_all` gives.
pub fn one_reading()
    ensures reading { (stream : List ℕ) → IsReading stream (said_of stream) }
    ensures only { (stream : List ℕ) (nexts : List Next) → IsReading stream nexts → nexts ≡ said_of stream }
    ensures one_way { (stream : List ℕ) (entries others : List Entry) (rest left : Rest) → Splits stream entries rest → Splits stream others left →
        (entries ≡ others) × (rest ≡ left) }
{}
