//! Keys that hold no other key.
ghost use Rattle.std.specs.Prelude.{◌≡◌, map, option_map, IfOk};
ghost use Rattle.search_lines.specs.Leaves as spec;

use crate::strings::{behind_atom, next_count, next_day};
use crate::words::{KeyWord, Place, Sign, When};
use imap_stream::{SetRange, SetText};
use imap_tokens::{Token, next_string, next_word, read_set};
use search_verb::{Search, SearchRange, SearchRanges};
use std::alloc::{AllocError, Global};
use undo_base::{NoMemory, Text};

fn sign_key(sign: Sign) -> Search
    ensures { result ≡ spec.sign_key sign }
{
    match sign {
        Sign::All => Search::all(),
        Sign::Answered => Search::answered(),
        Sign::Deleted => Search::deleted(),
        Sign::Draft => Search::draft(),
        Sign::Flagged => Search::flagged(),
        Sign::Seen => Search::seen(),
        Sign::Never => Search::none(),
    }
}

/// The name of a field, as keys have a word for it.
fn field_key(alloc: Global, name: &[u8], bytes: &[u8]) -> Result<Search, NoMemory>
    ensures { IfOk result (λ key. key ≡ spec.field_key name.now bytes.now) }
{
    let name = Text::of(alloc, name)?;
    let bytes = Text::of(alloc, bytes)?;
    Ok(Search::field(name, bytes))
}

fn body_key(alloc: Global, bytes: &[u8]) -> Result<Search, NoMemory>
    ensures { IfOk result (λ key. key ≡ spec.place_key Place.Body bytes.now) }
{
    Ok(Search::body(Text::of(alloc, bytes)?))
}

fn text_key(alloc: Global, bytes: &[u8]) -> Result<Search, NoMemory>
    ensures { IfOk result (λ key. key ≡ spec.place_key Place.Text bytes.now) }
{
    Ok(Search::text(Text::of(alloc, bytes)?))
}

fn place_key(alloc: Global, place: Place, bytes: &[u8]) -> Result<Search, NoMemory>
    ensures { IfOk result (λ key. key ≡ spec.place_key place bytes.now) }
{
    match place {
        Place::From => field_key(alloc, b"FROM", bytes),
        Place::To => field_key(alloc, b"TO", bytes),
        Place::Cc => field_key(alloc, b"CC", bytes),
        Place::Bcc => field_key(alloc, b"BCC", bytes),
        Place::Subject => field_key(alloc, b"SUBJECT", bytes),
        Place::Body => body_key(alloc, bytes),
        Place::Text => text_key(alloc, bytes),
    }
}

fn when_key(when: When, day: i64) -> Search
    ensures { result ≡ spec.when_key when day }
{
    match when {
        When::Before => Search::before(day),
        When::On => Search::on(day),
        When::Since => Search::since(day),
    }
}

/// A string, and what follows it.
fn read_place(
    alloc: Global,
    place: Place,
    tokens: &[Token],
) -> Result<Option<(Search, &[Token])>, NoMemory>
    ensures { IfOk result (λ found. option_map (λ r. (r.0, r.1.now)) found ≡ spec.place_in place tokens.now) }
{
    match next_string(tokens) {
        None => Ok(None),
        Some((bytes, rest)) => Ok(Some((place_key(alloc, place, bytes)?, rest))),
    }
}

/// A day, and what follows it.
fn read_when(when: When, tokens: &[Token]) -> Option<(Search, &[Token])>
    ensures { option_map (λ r. (r.0, r.1.now)) result ≡ spec.when_in when tokens.now }
{
    let (day, rest) = next_day(tokens)?;
    Some((when_key(when, day), rest))
}

fn size_key(larger: bool, size: u32) -> Search
    ensures { result ≡ spec.size_key larger size }
{
    if larger {
        Search::larger(size)
    } else {
        Search::smaller(size)
    }
}

/// A size, and what follows it.
fn read_size(larger: bool, tokens: &[Token]) -> Option<(Search, &[Token])>
    ensures { option_map (λ r. (r.0, r.1.now)) result ≡ spec.size_in larger tokens.now }
{
    let (size, rest) = next_count(tokens)?;
    Some((size_key(larger, size), rest))
}

/// A field's name and a string, and what follows them.
fn read_header(alloc: Global, tokens: &[Token]) -> Result<Option<(Search, &[Token])>, NoMemory>
    ensures { IfOk result (λ found. option_map (λ r. (r.0, r.1.now)) found ≡ spec.header_in tokens.now) }
{
    let Some((name, rest)) = next_string(tokens) else {
        return Ok(None);
    };
    match next_string(rest) {
        None => Ok(None),
        Some((bytes, rest)) => Ok(Some((field_key(alloc, name, bytes)?, rest))),
    }
}

/// All, or none.
fn known_key(every: bool) -> Search
    ensures { result ≡ spec.known_key every }
{
    if every { Search::all() } else { Search::none() }
}

/// A keyword, which no message has, and what follows it.
fn read_keyword(every: bool, tokens: &[Token]) -> Option<(Search, &[Token])>
    ensures { option_map (λ r. (r.0, r.1.now)) result ≡ spec.keyword_in every tokens.now }
{
    let rest = behind_atom(tokens)?;
    Some((known_key(every), rest))
}

fn range_of(range: &SetRange) -> SearchRange
    ensures { result ≡ spec.range_of range.now }
{
    SearchRange {
        from: range.from,
        to: range.to,
    }
}

fn ranges_vec(alloc: Global, set: &[SetRange]) -> Result<Vec<SearchRange>, AllocError>
    ensures { IfOk result (λ ranges. ranges.items ≡ map spec.range_of set.now) }
{
    set.iter().map(|range| range_of(range)).collect(alloc)
}

fn ranges_of(alloc: Global, set: &SetText) -> Result<SearchRanges, NoMemory>
    ensures { IfOk result (λ ranges. ranges ≡ map spec.range_of set.now) }
{
    let ranges = ranges_vec(alloc, set.as_slice())?;
    Ok(SearchRanges::from_vec(ranges))
}

/// The messages that a set names by their places, if the word is a set.
pub(crate) fn read_places(alloc: Global, word: &[u8]) -> Result<Option<Search>, NoMemory>
    ensures { IfOk result (λ key. key ≡ spec.places_in word.now) }
{
    match read_set(alloc, word)? {
        None => Ok(None),
        Some(set) => Ok(Some(Search::places(ranges_of(alloc, &set)?))),
    }
}

fn uids_of(alloc: Global, word: &[u8]) -> Result<Option<Search>, NoMemory>
    ensures { IfOk result (λ key. key ≡ spec.uids_of word.now) }
{
    match read_set(alloc, word)? {
        None => Ok(None),
        Some(set) => Ok(Some(Search::uids(ranges_of(alloc, &set)?))),
    }
}

/// A set of UIDs, and what follows it.
fn read_uids(alloc: Global, tokens: &[Token]) -> Result<Option<(Search, &[Token])>, NoMemory>
    ensures { IfOk result (λ found. option_map (λ r. (r.0, r.1.now)) found ≡ spec.uids_in tokens.now) }
{
    let Some((word, rest)) = next_word(tokens) else {
        return Ok(None);
    };
    match uids_of(alloc, word)? {
        None => Ok(None),
        Some(key) => Ok(Some((key, rest))),
    }
}

/// The opposite of a key without arguments.
fn unsign_key(alloc: Global, sign: Sign) -> Result<Search, NoMemory>
    ensures { IfOk result (λ key. key ≡ spec.unsign_key sign) }
{
    Search::not(alloc, sign_key(sign))
}

/// A key behind its word, and what follows it; none where the key holds others.
pub(crate) fn read_leaf(
    alloc: Global,
    word: KeyWord,
    tokens: &[Token],
) -> Result<Option<(Search, &[Token])>, NoMemory>
    ensures { IfOk result (λ found. option_map (λ r. (r.0, r.1.now)) found ≡ spec.leaf_in word tokens.now) }
{
    match word {
        KeyWord::Is(sign) => Ok(Some((sign_key(sign), tokens))),
        KeyWord::IsNot(sign) => Ok(Some((unsign_key(alloc, sign)?, tokens))),
        KeyWord::In(place) => read_place(alloc, place, tokens),
        KeyWord::Came(when) => Ok(read_when(when, tokens)),
        KeyWord::Larger => Ok(read_size(true, tokens)),
        KeyWord::Smaller => Ok(read_size(false, tokens)),
        KeyWord::Header => read_header(alloc, tokens),
        KeyWord::Keyword => Ok(read_keyword(false, tokens)),
        KeyWord::Unkeyword => Ok(read_keyword(true, tokens)),
        KeyWord::Uid => read_uids(alloc, tokens),
        KeyWord::Not => Ok(None),
        KeyWord::Or => Ok(None),
    }
}
