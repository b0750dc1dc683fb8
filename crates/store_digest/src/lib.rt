//! The digest of a mail store, by which two stores are compared.
//!
//! The digest of a store whose snapshot has no spelling would be want of memory; in use each has one. The same of the text of its
//! snapshot.
//!
//! What carries the crate: `digest` answers `digest_of` the store, the SHA-256 of its snapshot's one spelling, which
//! `snapshot_text` gives.
#![tactic(auto)]

ghost use Rattle.std.specs.Prelude.{◌≡◌, IfOk, OnOk};
ghost use Rattle.hex.specs.Hex.{encode_lower};
ghost use Rattle.sha2.specs.Sha256.{sha256};
ghost use Rattle.verb_bytes.specs.declared.journal.JournalRecord.TheVariants.{Snapshot};
ghost use Rattle.verb_bytes.specs.Spelling.{HasSpelling};
ghost use Rattle.store_digest.specs.Snapshots.{digest_of, snapshot_bytes};

use box_store::Store;
use sha2::{Digest, Sha256};
use std::alloc::Global;
use undo_base::{NoMemory, Text};
use verb_bytes::spell_snapshot;

/// The SHA-256 of bytes (FIPS 180-4), in 64 digits.
fn digits(alloc: Global, bytes: &[u8]) -> Result<Text, NoMemory>
    ensures { IfOk result (λ text. text ≡ encode_lower (sha256 bytes.now)) }
{
    let digest = Sha256::digest(bytes);
    let digits = hex::encode(alloc, &digest)?;
    Text::of(alloc, digits.as_bytes())
}

/// The record of a store's snapshot, that so many items have made. Where it has no spelling, as more mailboxes than a count of
/// four bytes would have none, that is told as want of memory.
pub fn snapshot_text(alloc: Global, store: &Store, items: u32) -> Result<Text, NoMemory>
    ensures text { IfOk result (λ text. text ≡ snapshot_bytes store.now.store items) }
    ensures spelled { OnOk result (HasSpelling (Snapshot items store.now.store.conf store.now.store.boxes)) }
{
    match spell_snapshot(alloc, items, store.conf(), store.boxes()) {
        Ok(text) => Ok(text),
        Err(_) => Err(NoMemory),
    }
}

/// The digest of a store that so many items have made: 64 lower-case hexadecimal digits.
pub fn digest(alloc: Global, store: &Store, items: u32) -> Result<Text, NoMemory>
    ensures { IfOk result (λ text. text ≡ digest_of store.now.store items) }
{
    let payload = snapshot_text(alloc, store, items)?;
    digits(alloc, payload.bytes())
}
