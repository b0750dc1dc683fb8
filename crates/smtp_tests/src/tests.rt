ghost use Rattle.std.specs.Prelude.{◌≡◌, true};
ghost use Rattle.smtp_session.specs.Dialog.{is_outcome_of_delivery};

use smtp_lines::SmtpLine;
use smtp_session::{SmtpOut, SmtpSession};
use std::alloc::Global;
use std::test::Fail;
use undo_base::{END_OF_NUMBERS, Name, Names, Text, User};
use verb_core::{
    Account, Accounts, Aliases, Conf, Deed, Filters, House, Item, Refused, Shown, SubmitFault,
};

/// What becomes of a delivery: the item 7, or a fault.
#[derive(Clone, Copy)]
enum Outcome {
    Kept,
    UidWide,
    Numbers,
    NoMemory,
    Disk,
    Closed,
}

fn delivered(alloc: Global) -> Item {
    Item {
        number: 7,
        at: 0,
        by: None,
        rev: 0,
        deed: Deed::Deliver {
            from: Text::new(alloc),
            to: Names::new(alloc),
            text: Text::new(alloc),
        },
        shown: Shown::Nothing,
    }
}

fn made(alloc: Global, outcome: Outcome) -> Result<Item, SubmitFault>
    ensures { is_outcome_of_delivery result ≡ true }
{
    match outcome {
        Outcome::Kept => Ok(delivered(alloc)),
        Outcome::UidWide => Err(SubmitFault::Refused(Refused::UidWide)),
        Outcome::Numbers => Err(SubmitFault::Refused(Refused::Numbers {
            next: END_OF_NUMBERS,
        })),
        Outcome::NoMemory => Err(SubmitFault::Refused(Refused::NoMemory)),
        Outcome::Disk => Err(SubmitFault::Disk),
        Outcome::Closed => Err(SubmitFault::Closed),
    }
}

/// Whether this is said, as the last answer or not.
fn is_said(out: &SmtpOut, last: bool, answer: &[u8]) -> bool {
    match out {
        SmtpOut::Say(text) => !last && text.bytes() == answer,
        SmtpOut::Bye(text) => last && text.bytes() == answer,
        SmtpOut::Nothing => false,
        SmtpOut::Mail(_) => false,
    }
}

/// Whether the session says this of an outcome, and no outcome is due any more.
fn says(
    alloc: Global,
    session: &mut SmtpSession,
    outcome: &Result<Item, SubmitFault>,
    last: bool,
    answer: &[u8],
) -> bool
    requires { is_outcome_of_delivery outcome.now ≡ true }
{
    if !session.is_due() {
        return false;
    }
    match session.done(alloc, outcome) {
        Ok(out) => {
            let said = is_said(&out, last, answer);
            drop(out);
            said && !session.is_due()
        }
        Err(_) => false,
    }
}

fn name(alloc: Global, text: &[u8]) -> Result<Name, Fail> {
    Ok(Name::read(alloc, text)?)
}

fn accounts(alloc: Global) -> Result<Accounts, Fail> {
    let mut accounts = Accounts::new(alloc);
    accounts.push(Account {
        name: name(alloc, b"ann")?,
        password: name(alloc, b"a1")?,
    })?;
    Ok(accounts)
}

fn domains(alloc: Global) -> Result<Names, Fail> {
    let mut domains = Names::new(alloc);
    domains.push(name(alloc, b"mail.test")?)?;
    Ok(domains)
}

fn house(alloc: Global) -> Result<House, Fail> {
    let host = name(alloc, b"mail.test")?;
    let domains = domains(alloc)?;
    let accounts = accounts(alloc)?;
    Ok(House {
        host,
        domains,
        accounts,
        postmaster: User(0),
        first: 2,
    })
}

fn hears_line(
    alloc: Global,
    house: &House,
    conf: &Conf,
    session: &mut SmtpSession,
    line: &SmtpLine,
    answer: &[u8],
) -> bool {
    if session.is_due() || !house.is_sound() {
        return false;
    }
    match session.take(alloc, house, conf, 0, line) {
        Ok(out) => {
            let said = is_said(&out, false, answer);
            drop(out);
            said
        }
        Err(_) => false,
    }
}

/// Whether a line is taken while nothing is due, and what is said of it is this; nothing is said of what is asked.
fn hears(
    alloc: Global,
    house: &House,
    session: &mut SmtpSession,
    text: &[u8],
    answer: &[u8],
) -> Result<bool, Fail> {
    let line = SmtpLine {
        bytes: Text::of(alloc, text)?,
        long: false,
    };
    let conf = Conf {
        aliases: Aliases::new(alloc),
        filters: Filters::new(alloc),
    };
    let heard = hears_line(alloc, house, &conf, session, &line, answer);
    drop(conf);
    drop(line);
    Ok(heard)
}

/// Whether of each of these lines this is said.
fn hears_each(
    alloc: Global,
    house: &House,
    session: &mut SmtpSession,
    lines: &[(&[u8], &[u8])],
) -> Result<bool, Fail> {
    for (line, answer) in lines {
        if !hears(alloc, house, session, line, answer)? {
            return Ok(false);
        }
    }
    Ok(true)
}

/// Whether all is said up to the end of a text, whose delivery is asked for.
fn waits(alloc: Global, house: &House, session: &mut SmtpSession) -> Result<bool, Fail> {
    let lines: [(&[u8], &[u8]); 4] = [
        (b"HELO x", b"250 mail.test\r\n"),
        (b"MAIL FROM:<>", b"250 OK\r\n"),
        (b"RCPT TO:<ann@mail.test>", b"250 OK\r\n"),
        (b"DATA", b"354 End with a line of one dot\r\n"),
    ];
    let heard = hears_each(alloc, house, session, &lines)?;
    let said = hears(alloc, house, session, b".", b"")?;
    Ok(heard && !said && session.is_due())
}

/// Whether the session says this of what becomes of a delivery.
fn says_of(
    alloc: Global,
    session: &mut SmtpSession,
    outcome: Outcome,
    last: bool,
    answer: &[u8],
) -> bool {
    let made = made(alloc, outcome);
    let said = says(alloc, session, &made, last, answer);
    drop(made);
    said
}

fn ends_in(
    alloc: Global,
    house: &House,
    session: &mut SmtpSession,
    outcome: Outcome,
    last: bool,
    answer: &[u8],
) -> Result<bool, Fail> {
    let waited = waits(alloc, house, session)?;
    let said = says_of(alloc, session, outcome, last, answer);
    let over = hears(alloc, house, session, b"DATA", b"503 Bad sequence\r\n")?;
    Ok(waited && said && over)
}

/// Whether a client that waits hears this of an outcome, and has no transaction afterwards.
fn ends(
    alloc: Global,
    house: &House,
    outcome: Outcome,
    last: bool,
    answer: &[u8],
) -> Result<bool, Fail> {
    let mut session = SmtpSession::new();
    let ended = ends_in(alloc, house, &mut session, outcome, last, answer);
    drop(session);
    ended
}

/// The place of the first of these outcomes of which something else is said.
fn misheard(
    alloc: Global,
    house: &House,
    table: &[(Outcome, bool, &[u8])],
) -> Result<Option<usize>, Fail> {
    for (row, (outcome, last, answer)) in table.iter().enumerate() {
        if !ends(alloc, house, *outcome, *last, answer)? {
            return Ok(Some(row));
        }
    }
    Ok(None)
}

#[test]
fn each_outcome_has_its_answer(rt: HostRuntime) -> Result<(), Fail> {
    let table: [(Outcome, bool, &[u8]); 6] = [
        (Outcome::Kept, false, b"250 OK 7\r\n"),
        (Outcome::UidWide, false, b"552 Mailbox full\r\n"),
        (Outcome::Numbers, false, b"552 Numbers used up\r\n"),
        (Outcome::NoMemory, false, b"452 No memory\r\n"),
        (Outcome::Disk, true, b"421 mail.test disk fault\r\n"),
        (Outcome::Closed, true, b"421 mail.test disk fault\r\n"),
    ];
    let house = house(rt.alloc())?;
    let misheard = misheard(rt.alloc(), &house, &table);
    drop(house);
    assert_eq!(rt; misheard?, None);
    Ok(())
}
