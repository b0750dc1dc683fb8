//! A text that is not in memory.
ghost use Rattle.std.specs.Prelude.{◌≡◌, length};

use crate::{Recalled, Shows, Text};
use std::marker::Model;

/// A text as clauses see it, that was once in memory or lies elsewhere; its length is known.
#[derive(Drop)]
pub struct PastText {
    size: u32,
    text: Recalled<Text>,
}

impl Model for PastText {
    ghost use Rattle.std.specs.Prelude.{◌≡◌, ℕ, List, length};

    ghost Value = { List ℕ };

    ghost view = { λ p. p.text.value };

    ghost invariant = { λ p. p.size ≡ length p.text.value };
}

impl PastText {
    /// What a reference shows.
    pub fn of(text: &Text) -> PastText
        ensures { result ≡ text.now }
    {
        PastText {
            size: text.bytes().len() as u32,
            text: Recalled::of(text),
        }
    }

    /// What a source shows, which is of so many bytes.
    pub fn shown_by<S: Shows<Text>>(source: &S, size: u32) -> PastText
        requires { length (S.shown source.now) ≡ size }
        ensures { result ≡ S.shown source.now }
    {
        PastText {
            size,
            text: Recalled::shown_by(source),
        }
    }

    /// The same once more.
    pub fn again(&self) -> PastText
        ensures { result ≡ self.now }
    {
        PastText {
            size: self.size,
            text: self.text.again(),
        }
    }

    /// How many bytes it has.
    pub fn len(&self) -> u32
        ensures { result ≡ length self.now }
    {
        self.size
    }
}
