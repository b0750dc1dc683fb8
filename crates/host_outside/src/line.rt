//! The lines of an IMAP client, and where an event of it ends.
//!
//! A SEARCH looks at each message of its mailbox, and 227 of them go into 4,096 octets. So a line that has the word SEARCH, in
//! any case, ends its event, and no other line stands in that. An event holds one SEARCH at most, since a command ends with a
//! line: this one, or that of a SEARCH whose literal came before. The first octets of a line may have been told already: so it
//! is known of each line whether it has the word, and how much of it the last octets spell. A text that has the word is only
//! cut smaller.
ghost use Rattle.std.specs.Prelude.{◌≡◌, ◌<◌, ◌≤◌, ◌+◌, length, take};
ghost use Rattle.host_outside.specs.Searches.{IsApart};
ghost use Rattle.host_outside.specs.Searches as spec;

/// What is known of a line from what was told of it.
#[derive(Clone, Copy)]
pub(crate) struct Line {
    /// The word stands in it.
    has_word: bool,
    /// So many letters of the word are its last octets.
    spelled: u8,
}

impl Line {
    /// A line of which nothing came yet.
    pub(crate) fn fresh() -> Line
        ensures { result ≡ spec.fresh }
    {
        Line {
            has_word: false,
            spelled: 0,
        }
    }

    /// Behind one more octet. A line feed ends it.
    fn go_on(self, octet: u8) -> Line
        ensures { result ≡ spec.goes_on self octet }
    {
        if octet == b'\n' {
            return Line::fresh();
        }
        self.spelling(spells(self.spelled, octet.to_ascii_uppercase()))
    }

    /// With so many letters that its last octets spell: six are the word.
    fn spelling(self, spelled: u8) -> Line
        ensures { result ≡ spec.spelling self spelled }
    {
        if spelled == 6 {
            Line {
                has_word: true,
                spelled: 0,
            }
        } else {
            Line {
                has_word: self.has_word,
                spelled,
            }
        }
    }
}

/// A letter of the word, the first being 0.
fn letter_at(place: u8) -> u8
    ensures { result ≡ spec.letter_at place }
{
    match place {
        0 => b'S',
        1 => b'E',
        2 => b'A',
        3 => b'R',
        4 => b'C',
        _ => b'H',
    }
}

/// How many letters of the word the last octets are, once this one in upper case is the last.
fn spells(spelled: u8, letter: u8) -> u8
    ensures { result ≡ spec.spells spelled letter }
{
    if spelled < 6 && letter == letter_at(spelled) {
        spelled + 1
    } else if letter == b'S' {
        1
    } else {
        0
    }
}

/// How many of the first octets are an event, where a line that has the word ends at a place, and began at one if that is not 0.
fn end_of(begun: usize, place: usize) -> usize
    requires { place < 9223372036854775807 }
    ensures first { begun ≡ 0 → result ≡ place + 1 }
    ensures later { 0 < begun → result ≡ begun }
{
    if begun == 0 { place + 1 } else { begun }
}

/// How many of the first octets are an event, and what is known of the line behind them. Before them so much of it was told.
pub(crate) fn event_in(line: Line, octets: &[u8], count: usize) -> (usize, Line)
    requires { count ≤ length octets.now }
    ensures within { result.0 ≤ count }
    ensures some { 0 < count → 0 < result.0 }
    ensures apart { IsApart line octets.now result.0 }
    ensures line { result.1 ≡ spec.told line (take result.0 octets.now) }
{
    let mut known = line;
    let mut begun = 0;
    for place in 0..count {
        let octet = octets[place];
        if octet == b'\n' && known.has_word {
            return (end_of(begun, place), Line::fresh());
        }
        known = known.go_on(octet);
        if octet == b'\n' {
            begun = place + 1;
        }
    }
    (count, known)
}
