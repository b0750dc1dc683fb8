//! What comes of a command.
use undo_base::{Sequence, Text};
use verb_core::{Ask, Body};

/// Bodies, in order; the name is that of the interface.
pub type Bodies0 = Sequence<Body>;

/// What comes of a command: an answer, texts that are to be read, an ask of the store whose outcome is due then, or the last
/// answer. After that the connection is closed.
#[derive(Drop)]
pub enum ImapOut {
    Say(Text),
    Read(Bodies0),
    Submit(Ask),
    Bye(Text),
}
