use crate::given::FIRST;
use crate::talk::{Talk, asks, hears, is_said, new_talk, reads, selects, settles, takes};
use imap_session::ImapOut;
use seal_log::ReadFault;
use std::alloc::Global;
use std::test::Fail;
use undo_base::{Text, Texts};
use verb_core::{Body, SubmitFault};

const STAYS: &[u8] = b"u OK CHECK done.\r\n";

fn hears_last(
    alloc: Global,
    talk: &mut Talk,
    line: &[u8],
    fault: SubmitFault,
) -> Result<bool, Fail> {
    let selected = selects(alloc, talk)?;
    let asked = asks(alloc, talk, line)?;
    let told = settles(alloc, talk, Some(fault), true, b"* BYE Disk fault.\r\n")?;
    Ok(selected && asked && told)
}

/// Whether a session has last words where the item of a line can't be kept.
fn is_last(alloc: Global, line: &[u8], fault: SubmitFault) -> Result<bool, Fail> {
    let mut talk = new_talk(alloc)?;
    let told = hears_last(alloc, &mut talk, line, fault);
    drop(talk);
    told
}

#[test]
fn a_fault_of_the_disk_ends_the_connection(rt: HostRuntime) -> Result<(), Fail> {
    let rows: [(&[u8], SubmitFault); 4] = [
        (b"t STATUS INBOX (MESSAGES)", SubmitFault::Disk),
        (b"t SELECT INBOX", SubmitFault::Disk),
        (b"t STATUS INBOX (MESSAGES)", SubmitFault::Closed),
        (b"t UID COPY 1:* Work", SubmitFault::Closed),
    ];
    for (line, fault) in rows {
        assert!(rt; is_last(rt.alloc(), line, fault)?);
    }
    Ok(())
}

/// Whether these bodies are to be read.
fn is_read(out: &ImapOut, bodies: &[Body]) -> bool {
    match out {
        ImapOut::Say(_) => false,
        ImapOut::Bye(_) => false,
        ImapOut::Read(asked) => asked.as_slice() == bodies,
        ImapOut::Submit(_) => false,
    }
}

/// Whether the texts of these bodies are needed for a line.
fn needs(alloc: Global, talk: &mut Talk, line: &[u8], bodies: &[Body]) -> Result<bool, Fail> {
    let out = takes(alloc, talk, line)?;
    let read = is_read(&out, bodies);
    drop(out);
    Ok(read)
}

/// Whether this is said of the texts that are awaited, or of why they can't be had.
fn hears_of_texts(
    alloc: Global,
    talk: &mut Talk,
    texts: &Result<Texts, ReadFault>,
    answer: &[u8],
) -> Result<bool, Fail> {
    let out = reads(alloc, talk, texts)?;
    let said = is_said(&out, false, answer);
    drop(out);
    Ok(said)
}

fn hears_of_fault(
    alloc: Global,
    talk: &mut Talk,
    fault: ReadFault,
    answer: &[u8],
) -> Result<bool, Fail> {
    let texts = Err(fault);
    hears_of_texts(alloc, talk, &texts, answer)
}

fn misses(alloc: Global, talk: &mut Talk, fault: ReadFault, answer: &[u8]) -> Result<bool, Fail> {
    let selected = selects(alloc, talk)?;
    let needed = needs(alloc, talk, b"t FETCH 1 BODY[]", &[FIRST.0])?;
    let told = hears_of_fault(alloc, talk, fault, answer)?;
    let goes_on = hears(alloc, talk, b"u CHECK", STAYS)?;
    Ok(selected && needed && told && goes_on)
}

/// Whether a session hears this where a text can't be had, and goes on.
fn is_missed(alloc: Global, fault: ReadFault, answer: &[u8]) -> Result<bool, Fail> {
    let mut talk = new_talk(alloc)?;
    let told = misses(alloc, &mut talk, fault, answer);
    drop(talk);
    told
}

#[test]
fn a_text_that_is_not_read_is_told(rt: HostRuntime) -> Result<(), Fail> {
    let rows: [(ReadFault, &[u8]); 2] = [
        (ReadFault::Disk, b"t NO Disk fault.\r\n"),
        (ReadFault::NoMemory, b"t NO No memory.\r\n"),
    ];
    for (fault, answer) in rows {
        assert!(rt; is_missed(rt.alloc(), fault, answer)?);
    }
    Ok(())
}

fn texts(alloc: Global, texts: &[&[u8]]) -> Result<Texts, Fail> {
    let mut list = Texts::new(alloc);
    for text in texts {
        list.push(Text::of(alloc, *text)?)?;
    }
    Ok(list)
}
