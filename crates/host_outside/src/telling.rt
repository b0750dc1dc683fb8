//! Lines on standard error, for whoever runs the program. None holds a text of mail or a password, and one that can't be written is lost.
//!
//! What went wrong is a line of the call and the system's error, as it happens; standard output and statuses are as the formats
//! fix them. Some lines a client can bring about again and again: no room, a failed read, a connection that cannot be taken, a
//! wrong password. They come once a second at most of each kind. No line holds a name of mail either.
ghost use Rattle.std.specs.Prelude.{◌≡◌, None, Some, IfSome, IfNone};

use std::io::{self, ErrorKind};
use std::mem;
use std::time::Clock;

/// Lets one line of a kind pass in each second, and counts those that it keeps back.
#[derive(Drop)]
pub(crate) struct Throttle {
    /// The second of the last line.
    last: Option<u64>,
    kept_back: u64,
}

impl Throttle {
    pub(crate) fn new() -> Throttle {
        Throttle {
            last: None,
            kept_back: 0,
        }
    }

    /// Whether a line may be written in this second: then, how many were kept back since the last one.
    pub(crate) fn pass(&mut self, second: u64) -> Option<u64>
        ensures once { self.old.last ≡ Some second → result ≡ None }
        ensures counted { IfSome result (λ count. (count ≡ self.old.kept_back) × (self.new.last ≡ Some second)) }
        ensures kept { IfNone result (self.new.last ≡ self.old.last) }
    {
        match self.last {
            Some(last) if last == second => {
                self.kept_back = self.kept_back.saturating_add(1);
                None
            }
            _ => {
                self.last = Some(second);
                Some(mem::replace(&mut self.kept_back, 0))
            }
        }
    }
}

/// The second of a clock that is not set back, or 0 where it can't be read.
pub(crate) fn second<R: Clock>(rt: &R) -> u64 {
    match rt.monotonic() {
        Ok(time) => time.as_secs(),
        Err(_) => 0,
    }
}

/// What an error of the system means to whoever reads of it, before the system's own words.
pub(crate) fn meaning(error: &io::Error) -> &'static str {
    match error.kind() {
        ErrorKind::PermissionDenied => "no permission: ",
        ErrorKind::AddrInUse => "another program has it: ",
        ErrorKind::UnexpectedEof => "it is shorter than it was: ",
        _ => "",
    }
}
