//! Whole streams, sets and dates: `cut_all`, `pick` and `date_text`, calls of the interface that the program does not make.

use imap_stream::{Next, PickRefused, RawCommand, SetRange, SetText, cut_all, pick};
use imap_text::date_text;
use std::alloc::Global;
use std::test::Fail;
use undo_base::{LAST_MOMENT, Text, Texts, Uids};

fn texts(alloc: Global, pieces: &[&[u8]]) -> Result<Texts, Fail> {
    let mut texts = Texts::new(alloc);
    for piece in pieces {
        texts.push(Text::of(alloc, piece)?)?;
    }
    Ok(texts)
}

fn is_text(texts: &Texts, bytes: &[u8]) -> bool {
    match texts.as_slice() {
        [text] => text.bytes() == bytes,
        _ => false,
    }
}

fn are_two_texts(texts: &Texts, first: &[u8], second: &[u8]) -> bool {
    match texts.as_slice() {
        [one, other] => one.bytes() == first && other.bytes() == second,
        _ => false,
    }
}

fn is_noop(command: &RawCommand) -> bool {
    is_text(&command.lines, b"a NOOP") && command.literals.len() == 0
}

fn is_login(command: &RawCommand) -> bool {
    are_two_texts(&command.lines, b"b LOGIN ", b" y") && is_text(&command.literals, b"x")
}

/// Whether it is the command NOOP, or where that was, the command with a literal.
fn is_command(next: &Next, noop: bool) -> bool {
    match next {
        Next::Command(command) => (noop && is_noop(command)) || (!noop && is_login(command)),
        Next::Ask { length: _ } => false,
        Next::Bad(_) => false,
        Next::NotYet => false,
    }
}

/// Whether a literal of one octet is invited.
fn asks_one(next: &Next) -> bool {
    match next {
        Next::Ask { length } => *length == 1,
        Next::Command(_) => false,
        Next::Bad(_) => false,
        Next::NotYet => false,
    }
}

fn are_told(nexts: &[Next]) -> bool {
    match nexts {
        [first, second, third] => {
            is_command(first, true) && asks_one(second) && is_command(third, false)
        }
        _ => false,
    }
}

/// Whether a stream in these pieces gives a command, an invitation and the command with its literal, however it is cut.
fn is_cut(alloc: Global, pieces: &[&[u8]]) -> Result<bool, Fail> {
    let nexts = cut_all(alloc, &texts(alloc, pieces)?)?;
    Ok(are_told(nexts.as_slice()))
}

#[test]
fn a_stream_gives_its_commands_however_it_is_cut(rt: HostRuntime) -> Result<(), Fail> {
    assert!(rt; is_cut(rt.alloc(), &[b"a NOOP\r\nb LOGIN {1}\r\nx y\r\n"])?);
    assert!(rt;
        is_cut(
            rt.alloc(),
            &[b"a NO", b"OP\r", b"\nb LOGIN {1", b"}\r\nx", b" y\r\nc"]
        )?
    );
    Ok(())
}

/// A view of four messages.
fn uids(alloc: Global) -> Result<Uids, Fail> {
    let mut uids = Uids::new(alloc);
    for uid in [1, 2, 4, 9] {
        uids.push(uid)?;
    }
    Ok(uids)
}

fn set(alloc: Global, ranges: &[(Option<u32>, Option<u32>)]) -> Result<SetText, Fail> {
    let mut set = SetText::new(alloc);
    for (from, to) in ranges {
        set.push(SetRange {
            from: *from,
            to: *to,
        })?;
    }
    Ok(set)
}

/// Whether a set names these places of the view.
fn picks(
    alloc: Global,
    ranges: &[(Option<u32>, Option<u32>)],
    by_uid: bool,
    wanted: &[u32],
) -> Result<bool, Fail> {
    let set = set(alloc, ranges)?;
    match pick(alloc, &set, &uids(alloc)?, by_uid) {
        Ok(places) => Ok(places.as_slice() == wanted),
        Err(_) => Ok(false),
    }
}

/// Why a set of one number names nothing.
fn refused(alloc: Global, number: u32) -> Result<Option<PickRefused>, Fail> {
    let set = set(alloc, &[(Some(number), Some(number))])?;
    Ok(pick(alloc, &set, &uids(alloc)?, false).err())
}

#[test]
fn sets_name_places_of_a_view(rt: HostRuntime) -> Result<(), Fail> {
    let alloc = rt.alloc();
    assert!(rt; picks(alloc, &[(Some(3), Some(1)), (None, None)], true, &[0, 1, 3])?);
    assert!(rt;
        picks(
            alloc,
            &[(Some(2), None), (Some(3), Some(3))],
            false,
            &[1, 2, 3]
        )?
    );
    assert_eq!(rt; refused(alloc, 5)?, Some(PickRefused::Number { given: 5 }));
    Ok(())
}

fn is_date(alloc: Global, at: u64, text: &[u8]) -> Result<bool, Fail> {
    if at > LAST_MOMENT {
        return Ok(false);
    }
    Ok(date_text(alloc, at)?.bytes() == text)
}

#[test]
fn moments_are_written_as_dates(rt: HostRuntime) -> Result<(), Fail> {
    let alloc = rt.alloc();
    assert!(rt; is_date(alloc, 1105092000, b"\" 7-Jan-2005 10:00:00 +0000\"")?);
    assert!(rt; is_date(alloc, LAST_MOMENT, b"\"31-Dec-9999 23:59:59 +0000\"")?);
    Ok(())
}
