//! A source, a sink and a link in memory, whose calls fail as listed.
ghost use Rattle.std.specs.Prelude.{◌≡◌, ◌==◌, false, IfOk};

use crate::disks::held;
use std::alloc::Global;
use std::test::Fail;
use undo_base::{NoMemory, Numbers, Text};
use undo_outside::{
    Event, Events, Fault, Link, LinkNote, MemLink, MemSink, MemSource, Role, Sink, Source, What,
};

fn numbers(alloc: Global, list: &[u32]) -> Result<Numbers, NoMemory> {
    Ok(Numbers::from_vec(Vec::from_slice(alloc, list)?))
}

fn source(alloc: Global) -> Result<MemSource, Fail>
    ensures { IfOk result (λ source. (⟦<MemSource as Source>⟧.told source).ended ≡ false) }
{
    let failing = numbers(alloc, &[2, 4])?;
    Ok(MemSource::new(Text::of(alloc, b"abcde")?, failing))
}

/// What a read of two bytes at most gives: how many, and the first of them; 9 where it fails.
fn got<S: Source>(source: &mut S) -> (usize, u8)
    requires { (S.told source.old).ended ≡ false }
    ensures { (S.told source.new).ended ≡ (result.0 == 0) }
{
    let mut buf = [0u8; 2];
    match source.read(&mut buf) {
        Ok(count) => (count, buf[0]),
        Err(_) => (9, 0),
    }
}

/// How many reads give this, up to the first that doesn't or that finds the end.
fn gives_each<S: Source>(source: &mut S, rows: &[(usize, u8)]) -> usize
    requires { (S.told source.old).ended ≡ false }
{
    for (row, want) in rows.iter().enumerate() {
        let found = got(source);
        if found.0 != want.0 || found.1 != want.1 {
            return row;
        }
        if found.0 == 0 {
            return row.saturating_add(1);
        }
    }
    rows.len()
}

#[test]
fn a_source_gives_its_bytes_and_fails_as_listed(rt: HostRuntime) -> Result<(), Fail> {
    let rows = [(2, b'a'), (9, 0), (2, b'c'), (9, 0), (1, b'e'), (0, 0)];
    let mut source = source(rt.alloc())?;
    let gave = gives_each(&mut source, &rows);
    drop(source);
    assert_eq!(rt; gave, 6);
    Ok(())
}

fn sink(alloc: Global) -> Result<MemSink, Fail> {
    let failing = numbers(alloc, &[2, 3])?;
    Ok(MemSink::new(alloc, failing))
}

/// How many bytes a write took; 9 where it fails.
fn taken(sink: &mut MemSink, bytes: &[u8]) -> usize {
    match sink.write(bytes) {
        Ok(count) => count,
        Err(_) => 9,
    }
}

/// How many writes take so many bytes, up to the first that doesn't.
fn takes_each(sink: &mut MemSink, table: &[(&[u8], usize)]) -> usize {
    for (row, (bytes, want)) in table.iter().enumerate() {
        if taken(sink, bytes) != *want {
            return row;
        }
    }
    table.len()
}

#[test]
fn a_sink_fails_as_listed(rt: HostRuntime) -> Result<(), Fail> {
    let mut sink = sink(rt.alloc())?;
    let table: [(&[u8], usize); 5] = [(b"ab", 2), (b"cd", 9), (b"cd", 9), (b"", 0), (b"ef", 2)];
    let took = takes_each(&mut sink, &table);
    let has_all = sink.bytes() == b"abef".as_slice();
    drop(sink);
    assert_eq!(rt; took, 5);
    assert!(rt; has_all);
    Ok(())
}

fn joined(conn: u32, at: u64) -> Event {
    Event {
        conn,
        at,
        what: What::Joined(Role::Smtp),
    }
}

fn two_events(alloc: Global) -> Result<Events, NoMemory> {
    let mut events = Events::new(alloc);
    events.push(joined(1, 5))?;
    events.push(joined(2, 7))?;
    Ok(events)
}

fn link(alloc: Global) -> Result<MemLink, Fail> {
    let failing = numbers(alloc, &[1, 4])?;
    Ok(MemLink::new(alloc, two_events(alloc)?, failing))
}

fn is_end(event: &Event) -> bool {
    match &event.what {
        What::End => true,
        What::Joined(_) => false,
        What::Bytes(_) => false,
        What::Left => false,
        What::Idle => false,
    }
}

/// The connection of what comes next, 100 more at the end, and its moment; 9 where it fails.
fn came(link: &mut MemLink) -> (u32, u64) {
    match link.next() {
        Ok(event) => {
            let conn = if is_end(&event) { 100 } else { event.conn };
            let at = event.at;
            drop(event);
            (conn, at)
        }
        Err(_) => (9, 0),
    }
}

fn is_sent(link: &mut MemLink, bytes: &[u8]) -> bool {
    match link.send(1, bytes) {
        Ok(()) => true,
        Err(_) => false,
    }
}

fn letter(note: &LinkNote) -> u8 {
    match note {
        LinkNote::Came(_) => b'c',
        LinkNote::Sent { .. } => b's',
        LinkNote::Missed { .. } => b'm',
        LinkNote::Closed { .. } => b'x',
    }
}

fn has_notes(link: &MemLink, letters: &[u8]) -> bool {
    let notes = link.log().as_slice();
    notes.len() == letters.len()
        && notes
            .iter()
            .zip(letters)
            .all(|(note, wanted)| letter(note) == *wanted)
}

fn comes(link: &mut MemLink, conn: u32, at: u64) -> bool {
    let came = came(link);
    came.0 == conn && came.1 == at
}

/// Whether the calls of a link answer as listed, in turn.
fn gives_its_events(link: &mut MemLink) -> [bool; 8] {
    [
        comes(link, 9, 0),
        comes(link, 1, 5),
        is_sent(link, b"hi"),
        !is_sent(link, b"missed"),
        link.close(1).is_ok(),
        comes(link, 2, 7),
        comes(link, 100, 7),
        has_notes(link, b"csmxcc"),
    ]
}

#[test]
fn a_link_gives_its_events_and_the_end_and_fails_as_listed(rt: HostRuntime) -> Result<(), Fail> {
    let mut link = link(rt.alloc())?;
    let gave = gives_its_events(&mut link);
    drop(link);
    assert_eq!(rt; held(&gave), 8);
    Ok(())
}
