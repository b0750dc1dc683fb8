//! Entries that are found by halves, in mail whose keys rise.
//!
//! Whether the keys of a mailbox are known to rise with its UIDs is kept with it (`Entries`). Mail comes in the order of its
//! items, so they do, but for one into which a replayed RENAME or DELETE put older mail behind newer. Where they rise a key is
//! found by halves, at most once, and a miss is decisive; the keys of a list are each looked for behind the one before it first, so
//! that a list in the order of the mail is one pass. Elsewhere it is one pass over the mailbox, each entry looked up among the
//! keys asked. EXPUNGE, CLOSE and a REMOVE pass over the mailbox in any case.
ghost use Rattle.std.specs.Prelude.{◌≡◌, IsTrue, Some, true};
ghost use Rattle.verb_core.specs.KeyOrder.{keys_rise};
ghost use Rattle.verb_core.specs.Mailboxes.{entry_of, same_key};
ghost use Rattle.mail_rows.specs.Indexed.{IsKeyPlace};

use undo_base::Key;
use verb_core::Entry;

/// The place of the entry of a key.
pub(crate) fn key_place(entries: &[Entry], key: Key) -> Option<usize>
    requires { IsTrue (keys_rise entries.now) }
    ensures { IsKeyPlace key entries.now result }
{
    match entries.binary_search_by_key(&key, |entry| entry.key) {
        Ok(place) => Some(place),
        Err(_) => None,
    }
}

/// The entry of a key.
pub(crate) fn entry_of(entries: &[Entry], key: Key) -> Option<Entry>
    requires { IsTrue (keys_rise entries.now) }
    ensures { result ≡ entry_of entries.now key }
{
    match key_place(entries, key) {
        None => None,
        Some(place) => Some(entries[place]),
    }
}

fn has_key(entry: &Entry, key: Key) -> bool
    ensures { result ≡ same_key key entry.now.key }
{
    key == entry.key
}

/// Whether the entry at a place has the key.
fn is_at(entries: &[Entry], place: usize, key: Key) -> bool
    ensures { result ≡ true → IsKeyPlace key entries.now (Some place) }
{
    if place >= entries.len() {
        return false;
    }
    has_key(&entries[place], key)
}

/// The place of the entry of a key, which is looked for at one place first.
pub(crate) fn key_near(entries: &[Entry], key: Key, near: usize) -> Option<usize>
    requires { IsTrue (keys_rise entries.now) }
    ensures { IsKeyPlace key entries.now result }
{
    if is_at(entries, near, key) {
        return Some(near);
    }
    key_place(entries, key)
}

/// The entry of a key, looked for at a place first. Where it is found the place behind it is left, where the next lies if keys are
/// asked in the order of the mail, all of them.
pub(crate) fn entry_near(entries: &[Entry], key: Key, near: &mut usize) -> Option<Entry>
    requires { IsTrue (keys_rise entries.now) }
    ensures { result ≡ entry_of entries.now key }
{
    match key_near(entries, key, *near) {
        None => None,
        Some(place) => {
            *near = place.saturating_add(1);
            Some(entries[place])
        }
    }
}
