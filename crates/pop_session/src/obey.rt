//! One line.
ghost use Rattle.std.specs.Prelude.{◌≡◌, IfOk, IsTrue, OnErr};
ghost use Rattle.shelf.specs.Notes.{size_of};
ghost use Rattle.verb_core.specs.Boxes.{is_rising};
ghost use Rattle.verb_core.specs.Store.{is_house};
ghost use Rattle.pop_session.specs.Sound.{IsStage};
ghost use Rattle.pop_session.specs.Dialog.{took};
ghost use Rattle.pop_session.specs.Dialog as spec;

use crate::answer::line_refused;
use crate::command::{Command, argument, read_command};
use crate::dialog::Dialog;
use crate::login::{give_name, give_password};
use crate::maildrop::Detail;
use crate::out::PopOut;
use crate::transaction::{list, mark, reset, retrieve, say, stat, wait};
use crate::update::quit;
use box_store::Store;
use shelf::Shelf;
use smtp_lines::SmtpLine;
use std::alloc::Global;
use undo_base::{NoMemory, Users};
use verb_core::{House, Stamps};

/// One line of a dialog.
pub(crate) fn take_line(
    alloc: Global,
    house: &House,
    store: &Store,
    stamps: &Stamps,
    sizes: &Shelf,
    in_use: &Users,
    dialog: &mut Dialog,
    line: &SmtpLine,
) -> Result<PopOut, NoMemory>
    requires house { IsTrue (is_house house.now) }
    requires rising { IsTrue (is_rising stamps.now) }
    requires stage { IsStage dialog.old.stage }
    ensures ok { IfOk result (λ out. spec.turn house.now store.now.store stamps.now (size_of sizes.now.notes) in_use.now dialog.old line.now ≡ took out dialog.new) }
    ensures err { OnErr result (dialog.new ≡ dialog.old) }
{
    let command = match read_command(line) {
        Ok(command) => command,
        Err(refused) => return say(alloc, line_refused(refused)),
    };
    match command {
        Command::User => give_name(alloc, dialog, argument(line)),
        Command::Pass => {
            let password = argument(line);
            give_password(alloc, house, store, stamps, sizes, in_use, dialog, password)
        }
        Command::Stat => stat(alloc, dialog),
        Command::List { message } => list(alloc, Detail::Octets, message, dialog),
        Command::Retr { message } => retrieve(alloc, store, dialog, message, None),
        Command::Dele { message } => mark(alloc, message, dialog),
        Command::Noop => wait(alloc, dialog),
        Command::Rset => reset(alloc, dialog),
        Command::Top { message, lines } => retrieve(alloc, store, dialog, message, Some(lines)),
        Command::Uidl { message } => list(alloc, Detail::UniqueId, message, dialog),
        Command::Quit => quit(alloc, dialog),
    }
}
