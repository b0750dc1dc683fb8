//! What follows an event's turns for the other connections.
ghost use Rattle.std.specs.Prelude.{◌≡◌};
ghost use Rattle.mail_loop.specs.Afterwards.{is_quiet, taking};

use crate::gone::Gone;

/// What follows an event's turns for the other connections. Nothing; or mailboxes were taken away, and who has one of them selected
/// is told and closed. Or the store was rewound or upgraded, which is told to each IMAP client, and closes it.
#[derive(Drop)]
pub enum Aftermath {
    Quiet,
    TookAway(Gone),
    Rewound,
    Upgraded,
}

impl Aftermath {
    /// What follows where these mailboxes were taken away.
    pub fn taking(gone: Gone) -> Aftermath
        ensures { result ≡ taking gone }
    {
        if gone.is_empty() {
            Aftermath::Quiet
        } else {
            Aftermath::TookAway(gone)
        }
    }

    /// Whether nothing follows.
    pub fn is_quiet(&self) -> bool
        ensures { result ≡ is_quiet self.now }
    {
        matches!(self, Aftermath::Quiet)
    }
}
