//! Whole streams: `cut_all`, a call of the interface that the program does not make.

use smtp_lines::{SmtpLine, cut_all};
use std::alloc::Global;
use std::test::Fail;
use undo_base::{Text, Texts};

fn texts(alloc: Global, pieces: &[&[u8]]) -> Result<Texts, Fail> {
    let mut texts = Texts::new(alloc);
    for piece in pieces {
        texts.push(Text::of(alloc, piece)?)?;
    }
    Ok(texts)
}

fn is_line(line: &SmtpLine, bytes: &[u8]) -> bool {
    line.bytes.bytes() == bytes && !line.long
}

fn are_two_lines(lines: &[SmtpLine]) -> bool {
    match lines {
        [first, second] => is_line(first, b"HELO x") && is_line(second, b"QUIT"),
        _ => false,
    }
}

/// Whether a stream in these pieces gives the two lines, however it is cut.
fn is_cut(alloc: Global, pieces: &[&[u8]]) -> Result<bool, Fail> {
    let texts = texts(alloc, pieces)?;
    let cut = cut_all(alloc, &texts);
    drop(texts);
    let lines = cut?;
    let are = are_two_lines(lines.as_slice());
    drop(lines);
    Ok(are)
}

#[test]
fn a_stream_gives_its_lines_however_it_is_cut(rt: HostRuntime) -> Result<(), Fail> {
    let whole = is_cut(rt.alloc(), &[b"HELO x\r\nQUIT\r\n"])?;
    let pieces = is_cut(rt.alloc(), &[b"HE", b"", b"LO x\r", b"\nQUIT\r\nNO", b"OP"])?;
    assert!(rt; whole);
    assert!(rt; pieces);
    Ok(())
}
