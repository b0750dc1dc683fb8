//! Laws of copies. These functions do nothing: their contracts are the laws.
ghost use Rattle.std.specs.Prelude.{◌≡◌, ◌⊎◌, ◌<◌, ◌++◌, ◌∷◌, [], ℕ, List, Some, length, slice_get, take};
ghost use Rattle.std.specs.List.{AllByRecursion};
ghost use Rattle.undo_outside.specs.Disk.{IsOverwritten};
ghost use Rattle.seal_log.specs.Journal.{sealed, StandsFor, StandsForFront};
ghost use Rattle.seal_log.specs.Loading.{IsDamagedAt};
ghost use Rattle.copy_laws.specs.Copies.{IsCut, IsCutShort, IsJournal, IsOfAMoment, IsOfLength, IsToEnd, GoForward, Keeps, Look, copy_of};
ghost use Rattle.copy_laws.specs.Seen.{AreReads, IsMended};

use seal_log::{one_reading, readings_agree};
use undo_outside::Disk;

/// A copy that is read until the end is found stands for the payloads of one of the views, and those of the first view are among them. One
/// that has the length of the first look does so too, or one closed gate mends it.
pub fn copies_stand()
    ensures whole { (look : Look) (looks : List Look) (first : List (List ℕ)) → StandsFor look.view first → AllByRecursion IsJournal looks
        → GoForward (look ∷ looks) → IsToEnd (look ∷ looks) → IsOfAMoment (look ∷ looks) first (copy_of (look ∷ looks)) }
    ensures cut { (look : Look) (looks : List Look) (first : List (List ℕ)) → StandsFor look.view first → AllByRecursion IsJournal looks
        → GoForward (look ∷ looks) → IsOfLength look looks
        → IsOfAMoment (look ∷ looks) first (copy_of (look ∷ looks)) ⊎ IsCutShort (look ∷ looks) first (copy_of (look ∷ looks)) }
{
    readings_agree();
}

/// A beginning of a journal that has a byte stands for the same payloads, or for a front of them once a closed gate stands where it is damaged.
pub fn beginnings_are_mended()
    ensures { (image bytes others : List ℕ) (payloads : List (List ℕ)) → StandsFor image payloads → image ≡ bytes ++ others → 0 < length bytes
        → StandsFor bytes payloads ⊎ IsCut payloads bytes }
{}

/// Where an image is damaged, one closed gate in that place leaves the payloads before it.
pub fn damages_are_mended()
    ensures { (image new : List ℕ) (place : ℕ) → (damaged : IsDamagedAt image place) → IsOverwritten image place (0 ∷ []) new → StandsFor new damaged.payloads }
{}

/// What is seen while payloads are sealed is there once more are sealed behind them. While any number of them is sealed, what is seen is there later,
/// if no gate, one byte, that was seen open is seen closed. No more than that is wanted of the system.
pub fn reads_go_forward()
    ensures behind { (first added sealing : List (List ℕ)) (earlier later : List ℕ) → StandsForFront first added earlier
        → StandsForFront (first ++ added) sealing later → Keeps earlier later }
    ensures gates { (first sealing : List (List ℕ)) (earlier later : List ℕ) → StandsForFront first sealing earlier → StandsForFront first sealing later
        → ((count : ℕ) → count < length sealing → slice_get earlier (length (sealed (first ++ take count sealing))) ≡ Some 85
        → slice_get later (length (sealed (first ++ take count sealing))) ≡ Some 85) → Keeps earlier later }
{
    one_reading();
}

/// Where each image since a moment stands for the first payloads and some of those that were being sealed, in order, so does a copy that was made since.
pub fn copies_of_a_disk<D: Disk>()
    ensures whole { (disk : D) (moment : ℕ) (first sealing : List (List ℕ)) (look : Look) (looks : List Look)
        → ((image : List ℕ) → (D.told disk).since moment image → StandsForFront first sealing image)
        → AreReads (D.told disk) moment (look ∷ looks) → IsToEnd (look ∷ looks) → StandsForFront first sealing (copy_of (look ∷ looks)) }
    ensures cut { (disk : D) (moment : ℕ) (first sealing : List (List ℕ)) (look : Look) (looks : List Look)
        → ((image : List ℕ) → (D.told disk).since moment image → StandsForFront first sealing image)
        → AreReads (D.told disk) moment (look ∷ looks) → IsOfLength look looks
        → StandsForFront first sealing (copy_of (look ∷ looks)) ⊎ IsMended first sealing (copy_of (look ∷ looks)) }
{
    one_reading();
    copies_stand();
}
