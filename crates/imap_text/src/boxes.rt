//! What is told of mailboxes.
ghost use Rattle.std.specs.Prelude.{◌≡◌, ◌++◌, IfOk, OnOk, map};
ghost use Rattle.imap_text.specs.Words.{spaced};
ghost use Rattle.imap_text.specs.Answers as spec;

use crate::BoxFacts;
use crate::write::{push_flags_line, push_number, push_number_line, push_quoted, push_space};
use std::alloc::Global;
use undo_base::{Flags, Name, Names, NoMemory, StatusAsk, StatusAsks, Text};

/// What parts a mailbox's name from those below it, where the store is deep or not. Takes no memory.
pub fn delimiter(deep: bool) -> &'static [u8]
    ensures { result.now ≡ spec.delimiter deep }
{
    if deep { b"\"/\"" } else { b"NIL" }
}

fn push_list_line(out: &mut Text, word: &[u8], deep: bool, name: &Name) -> Result<(), NoMemory>
    ensures { OnOk result (out.new ≡ out.old ++ spec.list_line word.now deep name.now) }
{
    out.extend(b"* ")?;
    out.extend(word)?;
    out.extend(b" () ")?;
    out.extend(delimiter(deep))?;
    out.extend(b" ")?;
    push_quoted(out, name.bytes())?;
    out.extend(b"\r\n")
}

/// The names, each on a line with this word before it, LIST or LSUB (RFC 3501, 7.2.2 and 7.2.3).
pub fn render_list(alloc: Global, word: &[u8], names: &Names, deep: bool) -> Result<Text, NoMemory>
    ensures { IfOk result (λ text. text ≡ spec.list_lines word.now names.now deep) }
{
    let mut out = Text::new(alloc);
    let names = names.as_slice();
    for name in names {
        push_list_line(&mut out, word, deep, name)?;
    }
    Ok(out)
}

fn status_word(ask: StatusAsk) -> &'static [u8]
    ensures { result.now ≡ spec.status_word ask }
{
    match ask {
        StatusAsk::Messages => b"MESSAGES",
        StatusAsk::Recent => b"RECENT",
        StatusAsk::UidNext => b"UIDNEXT",
        StatusAsk::UidValidity => b"UIDVALIDITY",
        StatusAsk::Unseen => b"UNSEEN",
    }
}

fn status_number(facts: &BoxFacts, ask: StatusAsk) -> u64
    ensures { result ≡ spec.status_number facts.now ask }
{
    match ask {
        StatusAsk::Messages => facts.messages as u64,
        StatusAsk::Recent => 0,
        StatusAsk::UidNext => facts.next,
        StatusAsk::UidValidity => facts.stamp as u64,
        StatusAsk::Unseen => facts.unseen as u64,
    }
}

fn push_status(
    alloc: Global,
    out: &mut Text,
    facts: &BoxFacts,
    ask: StatusAsk,
) -> Result<(), NoMemory>
    ensures { OnOk result (out.new ≡ out.old ++ spec.status_text facts.now ask) }
{
    out.extend(status_word(ask))?;
    push_number(alloc, out, b" ", status_number(facts, ask), b"")
}

fn push_statuses(
    alloc: Global,
    out: &mut Text,
    facts: &BoxFacts,
    asked: &[StatusAsk],
) -> Result<(), NoMemory>
    ensures { OnOk result (out.new ≡ out.old ++ spaced (map (spec.status_text facts.now) asked.now)) }
{
    for (index, ask) in asked.iter().enumerate() {
        push_space(out, index)?;
        push_status(alloc, out, facts, *ask)?;
    }
    Ok(())
}

/// The asked numbers of a mailbox, in the order asked (RFC 3501, 7.2.4).
pub fn render_status(
    alloc: Global,
    name: &Name,
    asked: &StatusAsks,
    facts: &BoxFacts,
) -> Result<Text, NoMemory>
    ensures { IfOk result (λ text. text ≡ spec.status_line name.now asked.now facts.now) }
{
    let mut out = Text::new(alloc);
    out.extend(b"* STATUS ")?;
    push_quoted(&mut out, name.bytes())?;
    out.extend(b" (")?;
    push_statuses(alloc, &mut out, facts, asked.as_slice())?;
    out.extend(b")\r\n")?;
    Ok(out)
}

fn push_unseen(alloc: Global, out: &mut Text, first: Option<u32>) -> Result<(), NoMemory>
    ensures { OnOk result (out.new ≡ out.old ++ spec.unseen_line first) }
{
    match first {
        None => Ok(()),
        Some(first) => push_number_line(
            alloc,
            out,
            b"OK [UNSEEN ",
            first as u64,
            b"] First unseen.",
        ),
    }
}

fn kept_flags(writes: bool) -> Flags
    ensures { result ≡ spec.kept_flags writes }
{
    Flags {
        answered: writes,
        flagged: writes,
        deleted: writes,
        seen: writes,
        draft: writes,
    }
}

fn push_counts(alloc: Global, out: &mut Text, facts: &BoxFacts) -> Result<(), NoMemory>
    ensures { OnOk result (out.new ≡ out.old ++ spec.count_lines facts.now) }
{
    push_flags_line(alloc, out, b"FLAGS ", kept_flags(true), b"")?;
    push_number_line(alloc, out, b"", facts.messages as u64, b" EXISTS")?;
    push_number_line(alloc, out, b"", 0, b" RECENT")
}

fn push_kept(alloc: Global, out: &mut Text, writes: bool) -> Result<(), NoMemory>
    ensures { OnOk result (out.new ≡ out.old ++ spec.kept_line writes) }
{
    push_flags_line(
        alloc,
        out,
        b"OK [PERMANENTFLAGS ",
        kept_flags(writes),
        b"] Kept.",
    )
}

fn push_uids(alloc: Global, out: &mut Text, facts: &BoxFacts) -> Result<(), NoMemory>
    ensures { OnOk result (out.new ≡ out.old ++ spec.uid_lines facts.now) }
{
    push_number_line(alloc, out, b"OK [UIDNEXT ", facts.next, b"] Next.")?;
    push_number_line(
        alloc,
        out,
        b"OK [UIDVALIDITY ",
        facts.stamp as u64,
        b"] Stamp.",
    )
}

/// What SELECT tells of a mailbox, or EXAMINE, which writes nothing (RFC 3501, 6.3.1 and 6.3.2).
pub fn render_select(alloc: Global, facts: &BoxFacts, writes: bool) -> Result<Text, NoMemory>
    ensures { IfOk result (λ text. text ≡ spec.select_lines facts.now writes) }
{
    let mut out = Text::new(alloc);
    push_counts(alloc, &mut out, facts)?;
    push_unseen(alloc, &mut out, facts.first_unseen)?;
    push_kept(alloc, &mut out, writes)?;
    push_uids(alloc, &mut out, facts)?;
    Ok(out)
}
