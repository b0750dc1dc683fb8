//! What a plain client sends is cut and read as it is meant.
ghost use Rattle.std.specs.Prelude.{◌≡◌, true, Ok};
ghost use Rattle.imap_stream.specs.Commands.{said_of};
ghost use Rattle.imap_stream.specs.LiteralMarks.{is_tag};
ghost use Rattle.imap_lines.specs.declared.command.ImapCommand.{ImapCommand};
ghost use Rattle.imap_lines.specs.Command.{command_of};
ghost use Rattle.imap_lines.specs.Writing.{IsSendable, sent, given_of};
ghost use Rattle.imap_lines.specs.PlainCommands.{IsWritable, write};

use civil_dates::in_calendar;
use imap_stream::one_reading;

/// What a plain client writes of a command is read as that command.
pub fn reads_what_is_written()
    ensures { (command : ImapCommand) → is_tag command.tag ≡ true → IsWritable command.what → command_of (write command) ≡ Ok command }
{
    in_calendar();
}

/// What a plain client sends of a command gives on the stream the literals to be invited, and what was written.
pub fn cuts_what_is_sent()
    ensures { (command : ImapCommand) → is_tag command.tag ≡ true → IsWritable command.what → IsSendable (write command) →
        said_of (sent (write command)) ≡ given_of (write command) }
{
    in_calendar();
    one_reading();
}
