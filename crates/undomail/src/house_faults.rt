//! What is wrong with a configuration that was refused, in one line. The rules are those of docs/FORMATS.md. What is a
//! configuration is house_text's to decide: nothing but these words rests on what is said here, and no password is told.
use std::alloc::Global;
use toml::de::Error;
use toml::{Table, Value};

/// The keys that a configuration may have.
const KEYS: [&str; 6] = ["host", "domains", "postmaster", "first", "user", "aliases"];

/// What is wrong, and the word with which its line begins, behind so many others that do.
#[derive(Clone, Copy, Drop)]
struct Misfit<'a> {
    word: &'a str,
    before: usize,
    what: &'static str,
}

fn at_word<'a>(word: &'a str, what: &'static str) -> Option<Misfit<'a>> {
    Some(Misfit {
        word,
        before: 0,
        what,
    })
}

/// Says on standard error where a text is no configuration, and why.
pub(crate) fn tell_fault<R: Eprint>(rt: &R, alloc: Global, bytes: &[u8]) {
    match toml::table_from_slice(alloc, bytes) {
        Ok(table) => {
            tell_misfit(rt, bytes, misfit_of(&table));
            drop(table);
        }
        Err(error) => {
            tell_error(rt, bytes, &error);
            drop(error);
        }
    }
}

/// Says what of a document is not as it must be.
fn tell_misfit<R: Eprint>(rt: &R, bytes: &[u8], misfit: Option<Misfit>) {
    let _told = match misfit {
        Some(Misfit { word, before, what }) => {
            let line = line_of(bytes, word, before);
            eprintln!(rt; "undomail: the configuration, line {line}, at {word}: {what}")
        }
        None => eprintln!(rt; "undomail: the configuration does not fit docs/FORMATS.md"),
    };
}

/// Says why a text is no document.
fn tell_error<R: Eprint>(rt: &R, bytes: &[u8], error: &Error) {
    let place = match error.span() {
        Some(span) => span.start,
        None => 0,
    };
    let (line, column) = place_in(bytes, place);
    let what = error.message();
    let _told = eprintln!(rt; "undomail: the configuration, line {line}, column {column}: {what}");
}

/// The line and the column of a place, both from 1; a column counts bytes.
fn place_in(bytes: &[u8], place: usize) -> (usize, usize) {
    let (mut line, mut column) = (1usize, 1usize);
    for byte in bytes.iter().take(place) {
        if *byte == b'\n' {
            line = line.saturating_add(1);
            column = 1;
        } else {
            column = column.saturating_add(1);
        }
    }
    (line, column)
}

/// The line that begins with a word, behind so many others that do, or 1.
fn line_of(bytes: &[u8], word: &str, before: usize) -> usize {
    let (mut left, mut line, mut begins) = (before, 1usize, true);
    for (place, byte) in bytes.iter().enumerate() {
        if begins && bytes[place..].starts_with(word.as_bytes()) {
            if left == 0 {
                return line;
            }
            left -= 1;
        }
        begins = *byte == b'\n' || (begins && *byte == b' ');
        if *byte == b'\n' {
            line = line.saturating_add(1);
        }
    }
    1
}

/// The first part of a document that is not as it must be.
fn misfit_of<'a>(table: &'a Table) -> Option<Misfit<'a>> {
    if let Some(found) = strange_key(table) {
        return Some(found);
    }
    if let Some(found) = in_host(table) {
        return Some(found);
    }
    if let Some(found) = in_domains(table) {
        return Some(found);
    }
    if let Some(found) = in_users(table) {
        return Some(found);
    }
    if let Some(found) = in_postmaster(table) {
        return Some(found);
    }
    if let Some(found) = in_first(table) {
        return Some(found);
    }
    in_aliases(table)
}

/// The text of a key.
fn text_in<'a>(table: &'a Table, key: &str) -> Option<&'a str> {
    table.get(key)?.as_str()
}

/// The list of a key.
fn list_in<'a>(table: &'a Table, key: &str) -> Option<&'a Vec<Value>> {
    table.get(key)?.as_array()
}

fn strange_key<'a>(table: &'a Table) -> Option<Misfit<'a>> {
    for (key, _) in table {
        if !KEYS.contains(&key.as_str()) {
            return at_word(key.as_str(), "there is no such key");
        }
    }
    None
}

/// Whether a text has so many bytes at most, one at least, and each is one from `least` to 126.
fn is_plain(text: &str, most: usize, least: u8) -> bool {
    if text.is_empty() || text.len() > most {
        return false;
    }
    for byte in text.as_bytes() {
        if *byte < least || *byte > 126 {
            return false;
        }
    }
    true
}

fn is_host(text: Option<&str>) -> bool {
    match text {
        Some(text) => is_plain(text, 200, 33),
        None => false,
    }
}

fn in_host<'a>(table: &'a Table) -> Option<Misfit<'a>> {
    if is_host(text_in(table, "host")) {
        return None;
    }
    at_word(
        "host",
        "it must be a text of 1 to 200 visible characters of ASCII",
    )
}

fn are_hosts(values: &[Value]) -> bool {
    for value in values {
        if !is_host(value.as_str()) {
            return false;
        }
    }
    !values.is_empty()
}

fn in_domains<'a>(table: &'a Table) -> Option<Misfit<'a>> {
    match list_in(table, "domains") {
        Some(values) if are_hosts(values.as_slice()) => None,
        _ => at_word(
            "domains",
            "they must be a list of one text at least, each of 1 to 200 visible characters of ASCII",
        ),
    }
}

fn in_users<'a>(table: &'a Table) -> Option<Misfit<'a>> {
    let Some(users) = list_in(table, "user") else {
        return at_word("user", "there must be 1 to 200 tables [[user]]");
    };
    if users.is_empty() || users.len() > 200 {
        return at_word("user", "there must be 1 to 200 tables [[user]]");
    }
    for (place, user) in users.iter().enumerate() {
        if let Some(what) = in_user(table, user) {
            return Some(Misfit {
                word: "[[user]]",
                before: place,
                what,
            });
        }
    }
    None
}

/// What is wrong with a user.
fn in_user(house: &Table, user: &Value) -> Option<&'static str> {
    let Some(table) = user.as_table() else {
        return Some("a user is a table");
    };
    let name = text_in(table, "name");
    if count_of(house, name) > 1 {
        return Some("another user has this name");
    }
    if !is_user_name(name) {
        return Some(
            "a name must be 1 to 64 of a to z, 0 to 9, '.', '-' and '_', and not postmaster",
        );
    }
    if !is_password(text_in(table, "password")) {
        return Some("a password must be 1 to 200 characters of ASCII that print");
    }
    if table.len() != 2 {
        return Some("a user has a name and a password, and nothing else");
    }
    None
}

fn is_name(text: &str) -> bool {
    let letters = b"abcdefghijklmnopqrstuvwxyz0123456789.-_";
    if text.is_empty() || text.len() > 64 || text == "postmaster" {
        return false;
    }
    for byte in text.as_bytes() {
        if !letters.contains(byte) {
            return false;
        }
    }
    true
}

fn is_user_name(text: Option<&str>) -> bool {
    match text {
        Some(text) => is_name(text),
        None => false,
    }
}

fn is_password(text: Option<&str>) -> bool {
    match text {
        Some(text) => is_plain(text, 200, 32),
        None => false,
    }
}

/// How many users have a name.
fn count_named(table: &Table, name: &str) -> usize {
    let Some(users) = list_in(table, "user") else {
        return 0;
    };
    let mut count = 0usize;
    for user in users {
        if is_named(user, name) {
            count = count.saturating_add(1);
        }
    }
    count
}

/// The same, and none where there is no name.
fn count_of(table: &Table, name: Option<&str>) -> usize {
    match name {
        Some(name) => count_named(table, name),
        None => 0,
    }
}

fn is_named(user: &Value, name: &str) -> bool {
    let Some(table) = user.as_table() else {
        return false;
    };
    match text_in(table, "name") {
        Some(other) => other == name,
        None => false,
    }
}

fn in_postmaster<'a>(table: &'a Table) -> Option<Misfit<'a>> {
    if count_of(table, text_in(table, "postmaster")) > 0 {
        return None;
    }
    at_word("postmaster", "it must be the name of one of the users")
}

fn in_first<'a>(table: &'a Table) -> Option<Misfit<'a>> {
    match table.get("first") {
        None => None,
        Some(value) => match value.as_integer() {
            Some(first) if 2 <= first && first <= 4194303 => None,
            _ => at_word("first", "it must be a whole number from 2 to 4194303"),
        },
    }
}

fn in_aliases<'a>(table: &'a Table) -> Option<Misfit<'a>> {
    let aliases = match table.get("aliases") {
        None => return None,
        Some(value) => match value.as_table() {
            Some(aliases) => aliases,
            None => return at_word("aliases", "they must be a table"),
        },
    };
    for (local, users) in aliases {
        if !is_alias(table, local.as_str(), users) {
            return at_word(
                local.as_str(),
                "an alias must be a name that no user has, with a list of one user's name at least",
            );
        }
    }
    None
}

fn is_alias(table: &Table, local: &str, users: &Value) -> bool {
    if !is_name(local) || count_named(table, local) > 0 {
        return false;
    }
    match users.as_array() {
        Some(users) => are_known(table, users.as_slice()),
        None => false,
    }
}

/// Whether they are users' names, one at least.
fn are_known(table: &Table, users: &[Value]) -> bool {
    for user in users {
        if count_of(table, user.as_str()) == 0 {
            return false;
        }
    }
    !users.is_empty()
}
