//! The commands of an IMAP client (RFC 3501, section 6), read from its lines and literals.
//!
//! `reader` finds the tag and the word, and `what` reads the arguments of each. `arguments` reads those of most commands, `messages` those of FETCH,
//! STORE, COPY and SEARCH, `append` those of APPEND. `asks` and `fetch` read what is asked for. `command` has the commands, `verbs` their words.
//! `laws` and `round_trip` say what the definitions mean. The stream is cut by `imap_stream`, and `imap_tokens` reads what stands in arguments. What
//! carries the crate: `read_command` gives the command or the first refusal that holds, which `one_command` says by the grammar of
//! specs/Grammar.antt.
#![tactic(auto)]

mod append;
mod arguments;
mod asks;
mod command;
mod fetch;
mod laws;
mod messages;
mod reader;
mod round_trip;
mod verbs;
mod what;

pub use asks::{FetchAsk, FetchAsks};
pub use command::{ImapCommand, ImapRefused, ImapWhat};
pub use imap_stream::{
    BadLine, LineFault, Next, Nexts, PickRefused, Pieces, RawCommand, SetRange, SetText, cut_all,
    pick,
};
pub use imap_tokens::{Part, Token, Tokens, flags_are_spelled, tokens_are_spelled};
pub use laws::{attributes_are_spelled, dates_are_spelled, items_are_spelled, one_command};
pub use reader::read_command;
pub use round_trip::{cuts_what_is_sent, reads_what_is_written};
