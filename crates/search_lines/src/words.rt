//! The words of keys (RFC 3501, section 9: search-key).
ghost use Rattle.std.specs.Prelude.{◌≡◌};
ghost use Rattle.search_lines.specs.Words as spec;

use imap_tokens::is_same_word;

/// Keys without arguments that are no other key's opposite.
#[derive(Clone, Copy, PartialEq, Eq)]
pub enum Sign {
    All,
    Answered,
    Deleted,
    Draft,
    Flagged,
    Seen,
    /// Matches no message.
    Never,
}

/// Keys whose argument is a string.
#[derive(Clone, Copy, PartialEq, Eq)]
pub enum Place {
    From,
    To,
    Cc,
    Bcc,
    Subject,
    Body,
    Text,
}

/// Keys whose argument is a date.
#[derive(Clone, Copy, PartialEq, Eq)]
pub enum When {
    Before,
    On,
    Since,
}

/// What a key begins with.
#[derive(Clone, Copy, PartialEq, Eq)]
pub enum KeyWord {
    /// A key without arguments.
    Is(Sign),
    /// The opposite of one.
    IsNot(Sign),
    In(Place),
    Came(When),
    Larger,
    Smaller,
    Header,
    Keyword,
    Unkeyword,
    Uid,
    Not,
    Or,
}

/// Keys without arguments. There are no recent messages and no new ones, and all are old.
fn sign_word(word: &[u8]) -> Option<Sign>
    ensures { result ≡ spec.sign_word word.now }
{
    if is_same_word(word, b"ALL") {
        return Some(Sign::All);
    }
    if is_same_word(word, b"ANSWERED") {
        return Some(Sign::Answered);
    }
    if is_same_word(word, b"DELETED") {
        return Some(Sign::Deleted);
    }
    if is_same_word(word, b"DRAFT") {
        return Some(Sign::Draft);
    }
    if is_same_word(word, b"FLAGGED") {
        return Some(Sign::Flagged);
    }
    if is_same_word(word, b"SEEN") {
        return Some(Sign::Seen);
    }
    if is_same_word(word, b"RECENT") {
        return Some(Sign::Never);
    }
    if is_same_word(word, b"NEW") {
        return Some(Sign::Never);
    }
    if is_same_word(word, b"OLD") {
        return Some(Sign::All);
    }
    None
}

/// The opposites of flags.
fn unsign_word(word: &[u8]) -> Option<Sign>
    ensures { result ≡ spec.unsign_word word.now }
{
    if is_same_word(word, b"UNANSWERED") {
        return Some(Sign::Answered);
    }
    if is_same_word(word, b"UNDELETED") {
        return Some(Sign::Deleted);
    }
    if is_same_word(word, b"UNDRAFT") {
        return Some(Sign::Draft);
    }
    if is_same_word(word, b"UNFLAGGED") {
        return Some(Sign::Flagged);
    }
    if is_same_word(word, b"UNSEEN") {
        return Some(Sign::Seen);
    }
    None
}

fn place_word(word: &[u8]) -> Option<Place>
    ensures { result ≡ spec.place_word word.now }
{
    if is_same_word(word, b"FROM") {
        return Some(Place::From);
    }
    if is_same_word(word, b"TO") {
        return Some(Place::To);
    }
    if is_same_word(word, b"CC") {
        return Some(Place::Cc);
    }
    if is_same_word(word, b"BCC") {
        return Some(Place::Bcc);
    }
    if is_same_word(word, b"SUBJECT") {
        return Some(Place::Subject);
    }
    if is_same_word(word, b"BODY") {
        return Some(Place::Body);
    }
    if is_same_word(word, b"TEXT") {
        return Some(Place::Text);
    }
    None
}

fn when_word(word: &[u8]) -> Option<When>
    ensures { result ≡ spec.when_word word.now }
{
    if is_same_word(word, b"BEFORE") {
        return Some(When::Before);
    }
    if is_same_word(word, b"ON") {
        return Some(When::On);
    }
    if is_same_word(word, b"SINCE") {
        return Some(When::Since);
    }
    None
}

fn other_word(word: &[u8]) -> Option<KeyWord>
    ensures { result ≡ spec.other_word word.now }
{
    if is_same_word(word, b"LARGER") {
        return Some(KeyWord::Larger);
    }
    if is_same_word(word, b"SMALLER") {
        return Some(KeyWord::Smaller);
    }
    if is_same_word(word, b"HEADER") {
        return Some(KeyWord::Header);
    }
    if is_same_word(word, b"KEYWORD") {
        return Some(KeyWord::Keyword);
    }
    if is_same_word(word, b"UNKEYWORD") {
        return Some(KeyWord::Unkeyword);
    }
    if is_same_word(word, b"UID") {
        return Some(KeyWord::Uid);
    }
    if is_same_word(word, b"NOT") {
        return Some(KeyWord::Not);
    }
    if is_same_word(word, b"OR") {
        return Some(KeyWord::Or);
    }
    None
}

/// What a key begins with, if the word is one of keys. Those of dates in the message's own header are none.
pub(crate) fn key_word(word: &[u8]) -> Option<KeyWord>
    ensures { result ≡ spec.key_word word.now }
{
    if let Some(sign) = sign_word(word) {
        return Some(KeyWord::Is(sign));
    }
    if let Some(sign) = unsign_word(word) {
        return Some(KeyWord::IsNot(sign));
    }
    if let Some(place) = place_word(word) {
        return Some(KeyWord::In(place));
    }
    if let Some(when) = when_word(word) {
        return Some(KeyWord::Came(when));
    }
    other_word(word)
}
