//! The words of commands.
ghost use Rattle.std.specs.Prelude.{◌≡◌};
ghost use Rattle.smtp_lines.specs.Word.{word_of};

use crate::parts::is_spelled_as;

/// A word that a command begins with.
#[derive(Clone, Copy, Debug, PartialEq, Eq)]
pub enum Word {
    Helo,
    Ehlo,
    Mail,
    Rcpt,
    Data,
    Rset,
    Noop,
    Vrfy,
    Quit,
    Expn,
    Help,
}

/// The word that bytes spell, in any case.
pub fn read_word(bytes: &[u8]) -> Option<Word>
    ensures { result ≡ word_of bytes.now }
{
    if is_spelled_as(bytes, b"HELO") {
        Some(Word::Helo)
    } else if is_spelled_as(bytes, b"EHLO") {
        Some(Word::Ehlo)
    } else if is_spelled_as(bytes, b"MAIL") {
        Some(Word::Mail)
    } else if is_spelled_as(bytes, b"RCPT") {
        Some(Word::Rcpt)
    } else if is_spelled_as(bytes, b"DATA") {
        Some(Word::Data)
    } else if is_spelled_as(bytes, b"RSET") {
        Some(Word::Rset)
    } else if is_spelled_as(bytes, b"NOOP") {
        Some(Word::Noop)
    } else if is_spelled_as(bytes, b"VRFY") {
        Some(Word::Vrfy)
    } else if is_spelled_as(bytes, b"QUIT") {
        Some(Word::Quit)
    } else if is_spelled_as(bytes, b"EXPN") {
        Some(Word::Expn)
    } else if is_spelled_as(bytes, b"HELP") {
        Some(Word::Help)
    } else {
        None
    }
}
