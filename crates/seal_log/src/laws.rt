//! What the definitions of a journal imply.
ghost use Rattle.std.specs.Prelude.{◌≡◌, ◌⊎◌, ◌<◌, ◌++◌, ◌∷◌, List, ℕ, Some, length, slice_get};
ghost use Rattle.std.specs.List.{AllByRecursion};
ghost use Rattle.seal_log.specs.Journal.{frame, sealed, IsPayload, LiesAt, StandsFor};
ghost use Rattle.seal_log.specs.Loading.{BeginsCut, GoesOn, IsDamagedAt, IsNotFormatted, places_from};
ghost use Rattle.seal_log.specs.declared.place.Place.{Place};

/// An image stands for one list of payloads, or it is damaged at one place, or it is no journal.
pub fn one_reading()
    ensures payloads { (image : List ℕ) (a b : List (List ℕ)) → StandsFor image a → StandsFor image b → a ≡ b }
    ensures damaged { (image : List ℕ) (a : List (List ℕ)) (place : ℕ) → StandsFor image a → IsDamagedAt image place → ⊥ }
    ensures place { (image : List ℕ) (p q : ℕ) → IsDamagedAt image p → IsDamagedAt image q → p ≡ q }
    ensures none { (image : List ℕ) (a : List (List ℕ)) → StandsFor image a → IsNotFormatted image → 0 < length a → ⊥ }
    ensures whole { (image : List ℕ) (place : ℕ) → IsDamagedAt image place → IsNotFormatted image → ⊥ }
{}

/// Two readings of one image agree as far as both go: what stands behind an open gate is read in one way.
pub fn readings_agree()
    ensures agree { (a b : List (List ℕ)) (r s : List ℕ) → AllByRecursion IsPayload a → AllByRecursion IsPayload b
        → sealed a ++ r ≡ sealed b ++ s → GoesOn a r b s ⊎ GoesOn b s a r }
    ensures whole { (payload more : List ℕ) → IsPayload payload → 0 < length more → BeginsCut (85 ∷ (frame payload ++ more)) → ⊥ }
{}

/// The places of payloads are where they lie, and they stay so when more are sealed.
pub fn places_stay()
    ensures lie { (payloads : List (List ℕ)) (i : ℕ) (place : Place) → slice_get (places_from 0 payloads) i ≡ Some place
        → (payload : List ℕ) × (slice_get payloads i ≡ Some payload) × LiesAt payloads place.gate place.length payload }
    ensures stay { (payloads more : List (List ℕ)) (gate count : ℕ) (payload : List ℕ)
        → LiesAt payloads gate count payload → LiesAt (payloads ++ more) gate count payload }
{}
