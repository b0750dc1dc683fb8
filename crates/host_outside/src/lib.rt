//! The real outside: standard streams, a file and the sockets of this machine, each as the trait that stands for it.
//!
//! `streams` has standard input and output, `file_disk` a file (`path_file` opens, reads and writes it, `near` keeps what was
//! read last, and `locks` keeps other programs out). `loop_link` has the connections: `sockets` visits them in turn, over
//! `listeners` and `connection`. `waiting` is what a slow reader has not taken yet. `telling` has the lines on standard error,
//! of which `logins` and `starting` find what to say. They tell nothing of content: what a real file or a peer does is no part
//! of any proof. What is proved is that each meets its trait. A call fails only where its own count rises by one, a call that
//! succeeds leaves the counts, and a disk's length never falls. So is what a disk does to its file (`calls` of `DiskOver`),
//! and that a write which found no room has left nothing (`cut`). And what a connection does with its stream: which bytes it
//! took (`Connection::send`), which it gave, and to whose number they are told (`Sockets::receive`). Nothing comes of a
//! connection that was closed or left (`Connection::receive`).
#![tactic(auto)]

mod calls;
mod connection;
mod file_disk;
mod line;
mod listeners;
mod locks;
mod logins;
mod loop_link;
mod near;
mod path_file;
mod queue;
mod readiness;
mod sockets;
mod starting;
mod streams;
mod telling;
mod waiting;

pub use calls::{FileCall, FileCalls};
pub use file_disk::{DiskOver, FileDisk, State};
pub use locks::Locks;
pub use loop_link::LoopLink;
pub use path_file::PathFile;
pub use streams::{Keeping, Reading, Writing};
