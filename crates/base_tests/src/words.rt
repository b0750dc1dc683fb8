//! Names that are read or refused, and lists that are copied.

use std::alloc::Global;
use std::test::Fail;
use undo_base::{Copies, Name, NameRefused, NoMemory, Numbers};

fn is_read(alloc: Global, bytes: &[u8]) -> bool {
    match Name::read(alloc, bytes) {
        Ok(name) => {
            let same = name.bytes() == bytes;
            drop(name);
            same
        }
        Err(_) => false,
    }
}

fn refused(alloc: Global, bytes: &[u8]) -> Option<NameRefused> {
    match Name::read(alloc, bytes) {
        Ok(name) => {
            drop(name);
            None
        }
        Err(why) => Some(why),
    }
}

/// The place of the first of these that is not read as it stands.
fn misread(alloc: Global, names: &[&[u8]]) -> Option<usize> {
    for (row, bytes) in names.iter().enumerate() {
        if !is_read(alloc, bytes) {
            return Some(row);
        }
    }
    None
}

/// The place of the first of these that is not refused so.
fn misrefused(alloc: Global, rows: &[(&[u8], NameRefused)]) -> Option<usize> {
    for (row, (bytes, why)) in rows.iter().enumerate() {
        if refused(alloc, bytes) != Some(*why) {
            return Some(row);
        }
    }
    None
}

#[test]
fn names_are_1_to_200_printable_bytes(rt: HostRuntime) {
    let long = [b'~'; 201];
    let refusals: [(&[u8], NameRefused); 4] = [
        (b"", NameRefused::Empty),
        (&long, NameRefused::Long { length: 201 }),
        (b"a\tb\x7f", NameRefused::Byte { place: 1 }),
        (b"~\x7f", NameRefused::Byte { place: 1 }),
    ];
    let misread = misread(rt.alloc(), &[b"Sent Items", &long[..200]]);
    let misrefused = misrefused(rt.alloc(), &refusals);
    assert_eq!(rt; misread, None);
    assert_eq!(rt; misrefused, None);
}

fn two_numbers(alloc: Global) -> Result<Numbers, NoMemory> {
    let mut numbers = Numbers::new(alloc);
    numbers.push(3)?;
    numbers.push(5)?;
    Ok(numbers)
}

fn are_two_numbers(numbers: &Numbers) -> bool {
    numbers.as_slice() == [3, 5].as_slice()
}

fn is_copied(alloc: Global, numbers: &Numbers) -> Result<bool, Fail> {
    let copy = numbers.copy(alloc)?;
    let same = are_two_numbers(&copy);
    drop(copy);
    Ok(same)
}

fn is_cloned(numbers: &Numbers) -> Result<bool, Fail> {
    let copy = numbers.clone()?;
    let same = are_two_numbers(&copy);
    drop(copy);
    Ok(same)
}

/// Whether a copy has the numbers, and whether a clone has them.
fn copies(alloc: Global, numbers: &Numbers) -> Result<(bool, bool), Fail> {
    let copied = is_copied(alloc, numbers)?;
    Ok((copied, is_cloned(numbers)?))
}

#[test]
fn lists_are_copied(rt: HostRuntime) -> Result<(), Fail> {
    let numbers = two_numbers(rt.alloc())?;
    let copies = copies(rt.alloc(), &numbers);
    drop(numbers);
    let (copied, cloned) = copies?;
    assert!(rt; copied);
    assert!(rt; cloned);
    Ok(())
}
