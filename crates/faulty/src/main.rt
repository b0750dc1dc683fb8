//! A program for tests: it runs the top call over a store, a link, a text and an output in memory of which listed calls fail, and
//! shows what is left. `asked` reads its words, `shown` prints; tests/faults has its cases.
//!
//! usage: faulty [store=HEX] [disk=LIST] [link=LIST] [text=LIST] [out=LIST] [image=WRITES+BYTES] [gate=COUNT] WORD ..
//!
//! LISTs are ordinals of calls that fail, from 1, with commas between; `store` has the bytes of the store at the start, none if it is left out. The
//! WORDs are those of undomail. Standard input is its text, and of `serve` it is a script of the link's events. What is printed: what was written to
//! the output; the transcript of the link, and `missed N` for each string that was missed. With `gate`, `passed N TIMES` for each item of a number
//! below the count that passed the gate of a cycle's workers. `status N`; and `store HEX`, the store with all that was written to it. With `image` it
//! is what a crash leaves where so many writes are done, and of the next one so many bytes.
#![tactic(auto)]

mod asked;
mod gate;
mod shown;

use asked::{Asked, Unasked, read_words};
use gate::Noting;
use mail_proxy::run;
use script_link::read_script;
use shown::Ended;
use std::alloc::Global;
use std::env;
use std::io::{self, Input, Read, Write};
use std::process::ExitCode;
use std::rt::Env;
use std::thread::Threads;
use undo_base::{NoMemory, Text};
use undo_outside::{Events, MemDisk, MemLink, MemSink, MemSource};

/// The words after the program's name.
fn take_words<R: Env + AllocGlobal>(rt: &R) -> Result<Vec<String>, Unasked> {
    let mut words = Vec::new(rt.alloc());
    let args = env::args(rt).map_err(|_| Unasked::Word)?;
    for word in args.skip(1) {
        words.push(word)?;
    }
    Ok(words)
}

/// The events that a script has; none where it is bad.
fn events_of(alloc: Global, serves: bool, bytes: &[u8]) -> Events {
    match serves {
        true => read_script(alloc, bytes).unwrap_or(Events::new(alloc)),
        false => Events::new(alloc),
    }
}

/// Runs the words over what they ask for.
fn ended<R: Threads + Sync>(
    rt: &R,
    alloc: Global,
    asked: Asked,
    bytes: Vec<u8>,
) -> Result<Ended, NoMemory> {
    let serves = asked.serves();
    let mut link = MemLink::new(alloc, events_of(alloc, serves, &bytes), asked.link);
    let mut source = MemSource::new(Text::of(alloc, &bytes)?, asked.text);
    let mut out = MemSink::new(alloc, asked.out);
    let disk = MemDisk::new(alloc, asked.store, asked.disk);
    let gate = Noting::below(alloc, asked.gate)?;
    let (status, disk) = run(
        rt,
        alloc,
        &asked.words,
        &mut source,
        &mut link,
        disk,
        &mut out,
        &gate,
    );
    Ended::of(alloc, status, &out, &link, &gate, &disk, asked.image)
}

fn input<R: Read + Drop>(alloc: Global, mut reader: R) -> Result<Vec<u8>, Unasked> {
    let mut bytes = Vec::new(alloc);
    reader.read_to_end(&mut bytes).map_err(|_| Unasked::Word)?;
    Ok(bytes)
}

fn output<R: Threads + Sync + Env + AllocGlobal + Input>(rt: &R) -> Result<Text, Unasked> {
    let alloc = rt.alloc();
    let asked = read_words(alloc, take_words(rt)?)?;
    let bytes = input(alloc, rt.reader())?;
    Ok(ended(rt, alloc, asked, bytes)?.print(alloc)?)
}

fn main(rt: HostRuntime) -> ExitCode {
    match output(&rt) {
        Ok(text) => match io::writer(&rt).write_all(text.bytes()) {
            Ok(()) => ExitCode::SUCCESS,
            Err(_) => ExitCode::from(2),
        },
        Err(Unasked::Word) => ExitCode::from(1),
        Err(Unasked::NoMemory) => ExitCode::from(2),
    }
}
