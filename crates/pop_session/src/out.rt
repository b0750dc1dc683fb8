//! What comes of a line.
use undo_base::Text;
use verb_core::{Ask, Body};

/// What comes of a call of `PopSession`. A `Text` is a whole answer as it is sent (RFC 1939, section 3). It begins with `+OK` or
/// `-ERR` and ends with CRLF, one of several lines with a line of a dot.
#[derive(Drop)]
pub enum PopOut {
    /// An answer, after which the next line is taken.
    Say(Text),
    /// The text of this body of a message in INBOX is to be read, and given to `PopSession::read`: RETR and TOP.
    Read(Body),
    /// The user who is logged in, or logs in, asks this of the store; its outcome is to be given to `PopSession::done`. PASS
    /// asks a FETCH of all messages in INBOX, RETR and TOP a strict FETCH of one, each showing the text and setting no `\Seen`.
    /// QUIT asks a STORE that adds `\Deleted` to the marked messages and then an EXPUNGE of no others.
    Submit(Ask),
    /// The last answer, after which the connection is closed: that to QUIT, or that of a failed seal.
    Bye(Text),
}
