//! What is not in memory, as clauses see it.
//!
//! An item in memory is without its text and stands for the whole item: contracts speak of texts that lie in the journal alone.
//! They are ghost data, a value that no code holds (`Recalled`, as std's `Snapshot`). It is tied to the text when the text is at
//! hand, or to what a disk is told to hold (`Shows`), and handed on.
ghost use Rattle.std.specs.Prelude.{◌≡◌};
ghost use base.Fml.{ftrue};

use std::marker::{Model, PhantomData};

/// What stands for a `T` that need not be in memory, as a place where it lies.
pub trait Shows<T> {
    /// The value that it stands for.
    ghost shown: { Self → T };
}

/// A `T` as clauses see it, that was once in memory, or that something shows. It takes no bytes and owns nothing.
pub struct Recalled<T> {
    marker: PhantomData<T>,
    pub ghost value: { T },
}

impl<T> Model for Recalled<T> {
    ghost also_owns = { λ _. ftrue };
}

impl<T> Recalled<T> {
    /// What a reference shows.
    pub fn of(x: &T) -> Recalled<T>
        ensures { result.value ≡ x.now }
    {
        let _ = x;
        Recalled {
            marker: PhantomData,
        }
    }

    /// What a source shows, which need not be in memory.
    pub fn shown_by<S: Shows<T>>(source: &S) -> Recalled<T>
        ensures { result.value ≡ S.shown source.now }
    {
        let _ = source;
        Recalled {
            marker: PhantomData,
        }
    }

    /// The same once more.
    pub fn again(&self) -> Recalled<T>
        ensures { result.value ≡ self.now.value }
    {
        let _ = self;
        Recalled {
            marker: PhantomData,
        }
    }
}

impl<T> Drop for Recalled<T> {
    fn drop(self) {
        let Self { marker: _ } = self;
    }
}
