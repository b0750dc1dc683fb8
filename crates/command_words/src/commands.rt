//! The commands of the program.

/// What the program is to do.
#[derive(Clone, Copy)]
pub enum Command {
    /// Formats an empty disk.
    Init,
    /// Opens the store and serves three ports or four, each 1 to 65535.
    Serve {
        smtp: u16,
        imap: u16,
        http: u16,
        /// For POP3, where that is to be served.
        pop: Option<u16>,
    },
    /// Opens the store and serves the events of a script.
    Script,
    /// Serves the events of a script over a store in memory.
    Play,
    /// Serves so many generated rounds, 3 to 100000, over a store in memory.
    Grow {
        rounds: u32,
    },
    /// Opens the store and tells its counts.
    Check,
    /// Opens the store and writes a new one, whose base is what the items up to this one left, or none where it is 0.
    Cut {
        point: u32,
    },
    /// Opens the store and tells whether its records are true.
    Audit,
}

/// Why words are no command.
#[derive(Clone, Copy)]
pub enum WordsRefused {
    /// The words are of no stated shape.
    Usage,
    /// No memory was found for reading them.
    NoMemory,
}
