//! Reading the words of the program.
ghost use Rattle.std.specs.Prelude.{◌≡◌, None, Some, Err, IfOk, map, option_map, string_bytes};
ghost use Rattle.command_words.specs.Usage.{command_of, second, store_in, store_of, ports_in, ports_of, pop_in, pop_of};
ghost use Rattle.command_words.specs.declared.commands.WordsRefused.TheVariants.{Usage};

use crate::commands::{Command, WordsRefused};
use crate::program::let_clap_read;
use crate::shapes::{are_words, command_in};
use std::alloc::Global;

/// The command that the words after the program's name are; `clap` reads them, as far as they may be words at all.
pub fn read_words(alloc: Global, words: &Vec<String>) -> Result<Command, WordsRefused>
    ensures ok { IfOk result (λ command. command_of (map string_bytes words.now.items) ≡ Some command) }
    ensures usage { result ≡ Err Usage → command_of (map string_bytes words.now.items) ≡ None }
{
    let words = words.as_slice();
    if !are_words(words) {
        return Err(WordsRefused::Usage);
    }
    match let_clap_read(alloc, words) {
        Ok(()) => match command_in(words) {
            Some(command) => Ok(command),
            None => Err(WordsRefused::Usage),
        },
        Err(refused) => Err(refused),
    }
}

fn second(words: &[String]) -> Option<&String>
    ensures { option_map (λ s. string_bytes s.now) result ≡ second (map string_bytes words.now) }
{
    match words {
        [_, word, ..] => Some(word),
        _ => None,
    }
}

/// The word STORE of a command's words.
fn store_in(words: &[String], command: Command) -> Option<&String>
    ensures { option_map (λ s. string_bytes s.now) result ≡ store_in (map string_bytes words.now) command }
{
    match command {
        Command::Init => second(words),
        Command::Serve {
            smtp: _,
            imap: _,
            http: _,
            pop: _,
        } => second(words),
        Command::Script => second(words),
        Command::Play => None,
        Command::Grow { rounds: _ } => None,
        Command::Check => second(words),
        Command::Cut { point: _ } => second(words),
        Command::Audit => second(words),
    }
}

/// The word STORE, where the words are of a shape that has one; this takes no memory.
pub fn store_path(words: &Vec<String>) -> Option<&String>
    ensures { option_map (λ s. string_bytes s.now) result ≡ store_of (map string_bytes words.now.items) }
{
    let words = words.as_slice();
    match command_in(words) {
        Some(command) => store_in(words, command),
        None => None,
    }
}

fn ports_in(command: Command) -> Option<(u16, u16, u16)>
    ensures { result ≡ ports_in command }
{
    match command {
        Command::Init => None,
        Command::Serve {
            smtp,
            imap,
            http,
            pop: _,
        } => Some((smtp, imap, http)),
        Command::Script => None,
        Command::Play => None,
        Command::Grow { rounds: _ } => None,
        Command::Check => None,
        Command::Cut { point: _ } => None,
        Command::Audit => None,
    }
}

/// The ports for SMTP, IMAP and HTTP of `serve`, where the words are of its shape; this takes no memory.
pub fn ports(words: &Vec<String>) -> Option<(u16, u16, u16)>
    ensures { result ≡ ports_of (map string_bytes words.now.items) }
{
    ports_in(command_in(words.as_slice())?)
}

fn pop_in(command: Command) -> Option<u16>
    ensures { result ≡ pop_in command }
{
    match command {
        Command::Init => None,
        Command::Serve {
            smtp: _,
            imap: _,
            http: _,
            pop,
        } => pop,
        Command::Script => None,
        Command::Play => None,
        Command::Grow { rounds: _ } => None,
        Command::Check => None,
        Command::Cut { point: _ } => None,
        Command::Audit => None,
    }
}

/// The port for POP3 of `serve`, where the words are of its shape and have one; this takes no memory.
pub fn pop_port(words: &Vec<String>) -> Option<u16>
    ensures { result ≡ pop_of (map string_bytes words.now.items) }
{
    pop_in(command_in(words.as_slice())?)
}
