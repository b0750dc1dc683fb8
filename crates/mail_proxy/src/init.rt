//! The command `init`: an empty disk is formatted for a configuration.
ghost use Rattle.std.specs.Prelude.{◌≡◌, ◌⊎◌, false, Err, IsTrue};
ghost use Rattle.house_text.specs.Beginning.{can_begin};
ghost use Rattle.mail_proxy.specs.Init.{Configures, Formats, Inits, made_line, made_status};
ghost use Rattle.mail_proxy.specs.Lines.{no_memory};
ghost use Rattle.mail_proxy.specs.Plans.{end_of, output_of};
ghost use Rattle.mail_proxy.specs.Texts.{ending};

use crate::plan::{LastLine, Plan, only_line, unread};
use crate::reading::read_text;
use house_text::{ConfigRefused, read_config};
use std::alloc::Global;
use time_desk::{Desk, MakeFault};
use undo_base::Text;
use undo_outside::{Disk, Source};
use verb_core::{Conf, House};

/// Reads a configuration, and formats the disk for it.
pub fn plan_init<S: Source, D: Disk + Drop>(alloc: Global, text: &mut S, disk: D) -> (Plan, D)
    requires { (S.told text.old).ended ≡ false }
    ensures { Inits D.told (S.told text.old) (S.told text.new) disk (end_of result.0 result.1) }
{
    match read_text(alloc, text) {
        Ok(text) => configure(alloc, &text, disk),
        Err(refused) => (unread(alloc, refused), disk),
    }
}

/// The disk is formatted, where the text is a configuration.
fn configure<D: Disk + Drop>(alloc: Global, text: &Text, disk: D) -> (Plan, D)
    ensures { Configures D.told disk text.now (end_of result.0 result.1) ⊎ (end_of result.0 result.1 ≡ ending 8 no_memory disk) }
{
    match read_config(alloc, text.bytes()) {
        Ok((house, conf)) => format_disk(alloc, disk, house, conf),
        Err(ConfigRefused::Text) => (only_line(alloc, 2, LastLine::BadConfiguration), disk),
        Err(ConfigRefused::NoMemory) => (only_line(alloc, 8, LastLine::NoMemory), disk),
    }
}

fn format_disk<D: Disk + Drop>(alloc: Global, disk: D, house: House, conf: Conf) -> (Plan, D)
    requires { IsTrue (can_begin house conf) }
    ensures { Formats D.told disk house conf (end_of result.0 result.1) }
{
    match Desk::make(alloc, disk, house, conf) {
        Ok(desk) => (only_line(alloc, 0, LastLine::Nothing), desk.into_disk()),
        Err((disk, fault)) => (unmade(alloc, fault), disk),
    }
}

/// What is answered where the disk was not formatted.
pub fn unmade(alloc: Global, fault: MakeFault) -> Plan
    ensures status { result.status ≡ made_status (Err fault) }
    ensures output { output_of result ≡ made_line (Err fault) }
{
    match fault {
        MakeFault::NotEmpty => only_line(alloc, 3, LastLine::NotEmpty),
        MakeFault::Disk => only_line(alloc, 5, LastLine::DiskFault),
        MakeFault::NoMemory => only_line(alloc, 8, LastLine::NoMemory),
    }
}
