//! An open connection: what it speaks, its stream and its dialog, and what it makes of the bytes that come.
//!
//! Open connections are a list by rising number to contracts; the code keeps a `BTreeMap`.
//!
//! Who is logged in is a user of the house in every seat: the loop keeps that, so the desk is asked for known users alone.
ghost use Rattle.std.specs.Prelude.{◌≡◌, ◌≤◌, Bool, List, Some, false, option_map, true};
ghost use Rattle.std.specs.List.{list_any};
ghost use Rattle.verb_core.specs.declared.mailbox.BoxId.{BoxId as TheBoxId};
ghost use Rattle.imap_session.specs.Dialog.{holds};
ghost use Rattle.verb_bytes.specs.declared.journal.JournalRecord.{JournalRecord};
ghost use Rattle.mail_loop.specs.PopTurn.{is_fetching, user_at};
ghost use Rattle.mail_loop.specs.State.{Seats, role_of};
ghost use Rattle.mail_loop.specs.Roles.{row_of};
ghost use Rattle.mail_loop.specs.Asked.{HaveSealed};
ghost use Rattle.mail_loop.specs.TurnCounts.{TurnCounts};
ghost use Rattle.mail_loop.specs.Hindrance.{Hindrance};
ghost use Rattle.console_head.specs.Request.{Stage};
ghost use Rattle.mail_loop.specs.ConsoleTurn.{AreSaid, ConsoleReading};
ghost use Rattle.mail_loop.specs.Machine.{hears, seat_at};
ghost use Rattle.mail_loop.specs.Afterwards.{holds_one, last_words};
ghost use Rattle.mail_loop.specs.Stands.{AreInUse, IsFree, IsHome, said_of, seat_of};
ghost use Rattle.mail_loop.specs.Took.{answered_alone};

use crate::aftermath::Aftermath;
use crate::console_turn::hear_console;
use crate::letters::Said;
use crate::reply::Turned;
use crate::roles::{at_rewind, at_upgrade};
use crate::serves::hear_turns;
use console_session::ConsoleSession;
use imap_session::ImapSession;
use imap_stream::Pieces;
use pop_session::PopSession;
use smtp_lines::Cutter;
use smtp_session::SmtpSession;
use std::alloc::Global;
use std::marker::Model;
use std::thread::Threads;
use time_desk::Desk;
use undo_base::{LAST_MOMENT, NoMemory, User, Users};
use undo_outside::{Disk, Gate, Role};
use verb_core::BoxId;

/// What a connection speaks, with its stream as far as it was not served, and its dialog.
#[derive(Drop)]
enum Kind {
    Smtp {
        unserved: Cutter,
        dialog: SmtpSession,
    },
    Imap {
        stream: Pieces,
        dialog: ImapSession,
    },
    Http(ConsoleSession),
    Pop {
        unserved: Cutter,
        dialog: PopSession,
    },
}

/// The connection that an event is about, and the event's moment.
pub struct Occasion {
    pub conn: u32,
    pub at: u64,
}

/// An open connection.
#[derive(Drop)]
pub struct Connection {
    kind: Kind,
}

impl Model for Connection {
    ghost use Rattle.mail_loop.specs.State.{Seat};
    ghost use Rattle.mail_loop.specs.Stands.{IsFree, seat_of};
    ghost use Rattle.imap_session.specs.contracts.session.ImapSession as session;
    ghost use Rattle.std.specs.Coded.{codes};

    ghost Value = { Seat };

    ghost coded = { Prim.hlevel (codes, session.the_row.coded) };

    ghost view = { λ s. seat_of s.kind };

    ghost invariant = { λ s. IsFree s.kind };
}

impl Kind {
    /// What a connection of a role is at first.
    fn fresh(alloc: Global, role: Role) -> Kind
        ensures seat { seat_of result ≡ (row_of role).fresh }
        ensures free { IsFree result }
    {
        match role {
            Role::Smtp => Kind::Smtp {
                unserved: Cutter::new(alloc),
                dialog: SmtpSession::new(),
            },
            Role::Imap => Kind::Imap {
                stream: Pieces::new(alloc),
                dialog: ImapSession::new(),
            },
            Role::Http => Kind::Http(ConsoleSession::new(alloc)),
            Role::Pop => Kind::Pop {
                unserved: Cutter::new(alloc),
                dialog: PopSession::new(),
            },
        }
    }
}

impl Connection {
    /// A connection of a role at first.
    pub fn fresh(alloc: Global, role: Role) -> Connection
        ensures { result ≡ (row_of role).fresh }
    {
        Connection {
            kind: Kind::fresh(alloc, role),
        }
    }

    fn role(&self) -> Role
        ensures { result ≡ role_of self.now }
    {
        match &self.kind {
            Kind::Smtp { .. } => Role::Smtp,
            Kind::Imap { .. } => Role::Imap,
            Kind::Http(_) => Role::Http,
            Kind::Pop { .. } => Role::Pop,
        }
    }

    /// Its last words, behind which it is closed, where something followed turns of another; none where it goes on.
    pub fn last_words(&self, aftermath: &Aftermath) -> Option<Said>
        ensures { option_map said_of result ≡ last_words aftermath.now self.now }
    {
        match aftermath {
            Aftermath::Quiet => None,
            Aftermath::TookAway(gone) => self.holds_one(gone.as_slice()).then_some(Said::Changed),
            Aftermath::Rewound => at_rewind(self.role()),
            Aftermath::Upgraded => at_upgrade(self.role()),
        }
    }

    /// Whether it has one of these mailboxes selected.
    fn holds_one(&self, boxes: &[BoxId]) -> bool
        ensures { result ≡ holds_one boxes.now self.now }
    {
        match &self.kind {
            Kind::Smtp { .. } => false,
            Kind::Imap { dialog, .. } => dialog_holds(dialog, boxes),
            Kind::Http(_) => false,
            Kind::Pop { .. } => false,
        }
    }

    /// Whether it is a POP3 client's.
    pub fn is_fetching(&self) -> bool
        ensures { result ≡ is_fetching self.now }
    {
        match &self.kind {
            Kind::Smtp { .. } => false,
            Kind::Imap { .. } => false,
            Kind::Http(_) => false,
            Kind::Pop { .. } => true,
        }
    }

    /// Who is logged in on it by POP3, or logs in.
    pub fn fetching_user(&self) -> Option<User>
        ensures { result ≡ user_at self.now }
    {
        match &self.kind {
            Kind::Smtp { .. } => None,
            Kind::Imap { .. } => None,
            Kind::Http(_) => None,
            Kind::Pop { dialog, .. } => dialog.user(),
        }
    }
}

/// Whether a dialog has one of these mailboxes selected.
fn dialog_holds(dialog: &ImapSession, boxes: &[BoxId]) -> bool
    ensures { result ≡ list_any (λ (box : TheBoxId). holds dialog.now box.user box.name) boxes.now }
{
    boxes.iter().any(|id| dialog.holds(id.user, &id.name))
}

/// Serves the bytes that came over a connection. What it makes of them is told of any table of connections in which it stands, where
/// `in_use` are the users of the other POP3 clients.
pub fn hear<R: Threads + Sync, D: Disk + Drop, G: Gate>(
    rt: &R,
    alloc: Global,
    desk: &mut Desk<D>,
    connection: &mut Connection,
    occasion: Occasion,
    gate: &G,
    in_use: &Result<Users, NoMemory>,
    bytes: &[u8],
) -> Turned
    requires moment { occasion.at ≤ LAST_MOMENT }
    requires sealed { desk.old.closed ≡ false }
    requires home { IsHome desk.old.kept.house connection.old }
    ensures home { IsHome desk.new.kept.house connection.new }
    ensures house { desk.new.kept.house ≡ desk.old.kept.house }
    ensures heard { (seats : Seats) → seat_at occasion.conn seats ≡ Some connection.old → AreInUse occasion.conn seats connection.old in_use.now → (no_memory : Bool) × (hs : List Hindrance) × (stage : Stage) × (failed : List JournalRecord) × (counts : TurnCounts) ×
        HaveSealed D.told desk.old desk.new failed counts × (readings : List ConsoleReading) × AreSaid readings ×
        (hears no_memory hs stage occasion.at (record { kept = desk.old.kept; seats = seats }) occasion.conn connection.old bytes.now
        ≡ answered_alone occasion.conn result desk.new.kept failed counts readings connection.new seats) }
{
    let Occasion { conn, at } = occasion;
    match &mut connection.kind {
        Kind::Smtp { unserved, dialog } => {
            hear_turns(alloc, desk, unserved, dialog, conn, at, in_use, bytes)
        }
        Kind::Imap { stream, dialog } => {
            hear_turns(alloc, desk, stream, dialog, conn, at, in_use, bytes)
        }
        Kind::Http(console) => hear_console(rt, alloc, desk, console, conn, at, gate, bytes),
        Kind::Pop { unserved, dialog } => {
            hear_turns(alloc, desk, unserved, dialog, conn, at, in_use, bytes)
        }
    }
}
