//! What the words ask for.
use hex::decode;
use std::alloc::{AllocFailed, Global};
use undo_base::{NoMemory, Numbers, Text, after, before, read_number};

/// Why nothing is run.
#[derive(Clone, Copy)]
pub(crate) enum Unasked {
    Word,
    NoMemory,
}

impl<T: Drop> From<AllocFailed<T>> for Unasked {
    fn from(_: AllocFailed<T>) -> Unasked {
        Unasked::NoMemory
    }
}

impl From<NoMemory> for Unasked {
    fn from(_: NoMemory) -> Unasked {
        Unasked::NoMemory
    }
}

/// What is run, and over what.
#[derive(Drop)]
pub(crate) struct Asked {
    pub(crate) store: Text,
    pub(crate) disk: Numbers,
    pub(crate) link: Numbers,
    pub(crate) text: Numbers,
    pub(crate) out: Numbers,
    pub(crate) image: Option<(usize, usize)>,
    pub(crate) gate: u32,
    pub(crate) words: Vec<String>,
}

impl Asked {
    fn new(alloc: Global) -> Asked {
        Asked {
            store: Text::new(alloc),
            disk: Numbers::new(alloc),
            link: Numbers::new(alloc),
            text: Numbers::new(alloc),
            out: Numbers::new(alloc),
            image: None,
            gate: 0,
            words: Vec::new(alloc),
        }
    }

    /// Whether the link is used.
    pub(crate) fn serves(&self) -> bool {
        match self.words.first() {
            Some(word) => word.as_bytes() == b"serve".as_slice(),
            None => false,
        }
    }

    /// Takes one setting, or tells that it is none.
    fn set(&mut self, alloc: Global, name: &[u8], value: &[u8]) -> Result<bool, Unasked> {
        match name {
            b"store" => self.store = bytes_of(alloc, value)?,
            b"disk" => self.disk = numbers_of(alloc, value)?,
            b"link" => self.link = numbers_of(alloc, value)?,
            b"text" => self.text = numbers_of(alloc, value)?,
            b"out" => self.out = numbers_of(alloc, value)?,
            b"image" => self.image = Some(image_of(value)?),
            b"gate" => self.gate = number_of(value)?,
            _ => return Ok(false),
        }
        Ok(true)
    }
}

/// The bytes that hexadecimal digits spell.
fn bytes_of(alloc: Global, digits: &[u8]) -> Result<Text, Unasked> {
    match decode(alloc, digits) {
        Ok(bytes) => Ok(Text::of(alloc, &bytes)?),
        Err(_) => Err(Unasked::Word),
    }
}

fn number_of(digits: &[u8]) -> Result<u32, Unasked> {
    match read_number(0, 4294967295, digits) {
        Some(number) => Ok(number as u32),
        None => Err(Unasked::Word),
    }
}

/// Numbers with commas between.
fn numbers_of(alloc: Global, list: &[u8]) -> Result<Numbers, Unasked> {
    let mut numbers = Numbers::new(alloc);
    for digits in list.split(|byte| *byte == b',') {
        numbers.push(number_of(digits)?)?;
    }
    Ok(numbers)
}

/// What stands before a byte and behind it.
fn split(bytes: &[u8], mark: u8) -> Option<(&[u8], &[u8])> {
    let at = bytes.iter().position(|byte| *byte == mark)?;
    Some((before(bytes, at), after(bytes, at.saturating_add(1))))
}

/// So many writes, and so many bytes of the next.
fn image_of(value: &[u8]) -> Result<(usize, usize), Unasked> {
    match split(value, b'+') {
        Some((writes, bytes)) => Ok((number_of(writes)? as usize, number_of(bytes)? as usize)),
        None => Err(Unasked::Word),
    }
}

/// Settings come first, and then the words of the top call.
pub(crate) fn read_words(alloc: Global, words: Vec<String>) -> Result<Asked, Unasked> {
    let mut asked = Asked::new(alloc);
    let mut begun = false;
    for word in words {
        if !begun {
            begun = match split(word.as_bytes(), b'=') {
                Some((name, value)) => !asked.set(alloc, name, value)?,
                None => true,
            };
        }
        if begun {
            asked.words.push(word)?;
        }
    }
    Ok(asked)
}
