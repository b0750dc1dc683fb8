//! What the system tells of sockets: each time that something comes over one, or that it takes again what waits for it.
use mio::event::Iter;
use mio::unix::SourceFd;
use mio::{Events, Interest, Poll, Token};
use std::alloc::Global;
use std::io;
use std::net::Net;
use std::os::fd::{AsRawFd, RawFd};
use std::time::Duration;
use undo_base::NoMemory;

/// So many sockets are told of at a time: as many as there can be.
const MOST_TOLD: usize = 1024;

/// The sockets of which the system tells. One that is closed is told of no more.
#[derive(Drop)]
pub(crate) struct Readiness {
    poll: Poll,
    woken: Events,
}

impl Readiness {
    /// Of no sockets yet. Where the system has no such thing to give, this tells why.
    pub(crate) fn open<R: Net>(net: &R, alloc: Global) -> Result<io::Result<Readiness>, NoMemory> {
        let woken = Events::with_capacity(alloc, MOST_TOLD)?;
        Ok(match Poll::new(net) {
            Ok(poll) => Ok(Readiness { poll, woken }),
            Err(error) => {
                drop(woken);
                Err(error)
            }
        })
    }

    /// From now on it is told of this socket, under this number: at once where something is there. After a call that found
    /// nothing more, or no more room, it is told as soon as there is.
    pub(crate) fn add<S: AsRawFd>(&self, socket: &S, number: usize) -> io::Result<()> {
        let descriptor: RawFd = socket.as_raw_fd();
        let mut source = SourceFd(&descriptor);
        self.poll
            .registry()
            .register(&mut source, Token(number), in_and_out())
    }

    /// Waits until a socket is told of, for so many milliseconds at most.
    pub(crate) fn wait(&mut self, millis: u64) -> io::Result<()> {
        self.poll
            .poll(&mut self.woken, Some(Duration::from_millis(millis)))
    }

    /// The sockets that the last wait told of, by their numbers. There may be nothing there all the same.
    pub(crate) fn woken(&self) -> Iter<'_> {
        self.woken.iter()
    }
}

/// That something came, and that there is room again.
fn in_and_out() -> Interest {
    Interest::READABLE.add(Interest::WRITABLE)
}
