//! The command that words are, by the words themselves.
//!
//! The port of POP3 is the last word of `serve`, and may be left out; `ports` tells the other three of either shape. Ports may be
//! equal, as words: the second one of them cannot be had.
ghost use Rattle.std.specs.Prelude.{◌≡◌, Option, map, string_bytes};
ghost use Rattle.std.specs.List.{list_all};
ghost use Rattle.command_words.specs.Usage.{is_word, alone, with_one, with_two, at_ports, with_ports, some_port, by_number, command_of};

use crate::commands::Command;
use crate::numbers::{read_point, read_port, read_rounds};

/// Whether a word may stand: it is not empty and does not begin with '-'.
fn is_word(word: &String) -> bool
    ensures { result ≡ is_word (string_bytes word.now) }
{
    match word.as_bytes() {
        [] => false,
        [first, ..] => *first != b'-',
    }
}

fn all_are_words(words: &[String]) -> bool
    ensures { result ≡ list_all (λ word. is_word (string_bytes word)) words.now }
{
    words.iter().all(|word| is_word(word))
}

/// Whether each word may stand.
pub fn are_words(words: &[String]) -> bool
    ensures { result ≡ list_all is_word (map string_bytes words.now) }
{
    all_are_words(words)
}

fn alone(name: &str) -> Option<Command>
    ensures { result ≡ alone name.now }
{
    if name == "play" {
        Some(Command::Play)
    } else {
        None
    }
}

fn with_one(name: &str, word: &str) -> Option<Command>
    ensures { result ≡ with_one name.now word.now }
{
    if name == "init" {
        Some(Command::Init)
    } else if name == "script" {
        Some(Command::Script)
    } else if name == "check" {
        Some(Command::Check)
    } else if name == "audit" {
        Some(Command::Audit)
    } else if name == "grow" {
        read_rounds(word).map(|rounds| Command::Grow { rounds })
    } else {
        None
    }
}

fn with_two(name: &str, word: &str) -> Option<Command>
    ensures { result ≡ with_two name.now word.now }
{
    if name == "cut" {
        read_point(word).map(|point| Command::Cut { point })
    } else {
        None
    }
}

/// The command `serve` at its ports, if all are some. That of POP3 may be none that was asked for.
fn at_ports(
    smtp: Option<u16>,
    imap: Option<u16>,
    http: Option<u16>,
    pop: Option<Option<u16>>,
) -> Option<Command>
    ensures { result ≡ at_ports smtp imap http pop }
{
    Some(Command::Serve {
        smtp: smtp?,
        imap: imap?,
        http: http?,
        pop: pop?,
    })
}

fn with_ports(
    name: &str,
    smtp: &str,
    imap: &str,
    http: &str,
    pop: Option<Option<u16>>,
) -> Option<Command>
    ensures { result ≡ with_ports name.now smtp.now imap.now http.now pop }
{
    if name == "serve" {
        at_ports(read_port(smtp), read_port(imap), read_port(http), pop)
    } else {
        None
    }
}

/// A port of POP3 that is asked for.
fn some_port(word: &str) -> Option<Option<u16>>
    ensures { result ≡ some_port word.now }
{
    read_port(word).map(|port| Some(port))
}

/// The command that so many words are, if each may stand.
fn by_number(words: &[String]) -> Option<Command>
    ensures { result ≡ by_number (map string_bytes words.now) }
{
    match words {
        [name] => alone(name),
        [name, word] => with_one(name, word),
        [name, _, word] => with_two(name, word),
        [name, _, smtp, imap, http] => with_ports(name, smtp, imap, http, Some(None)),
        [name, _, smtp, imap, http, pop] => with_ports(name, smtp, imap, http, some_port(pop)),
        _ => None,
    }
}

/// The command that words are.
pub fn command_in(words: &[String]) -> Option<Command>
    ensures { result ≡ command_of (map string_bytes words.now) }
{
    if are_words(words) {
        by_number(words)
    } else {
        None
    }
}
