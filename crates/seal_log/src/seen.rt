//! What is seen of a journal.
//!
//! What a survey finds behind the payloads is an enum: a log where more can be sealed, or the place of the gate where a frame is
//! cut. So a survey of damage gives nothing to seal with.
ghost use Rattle.std.specs.Prelude.{◌≡◌, ◌↔◌, [], true, false, IsTrue};
ghost use Rattle.seal_log.specs.Log.{IsClosed, end_gate, is_cut as cut_there, leaves_open};

use crate::{Log, Places};

/// What stands at a gate.
#[derive(Clone, Copy)]
pub(crate) enum Found {
    /// Behind an open gate a frame of so many bytes of payload, and the next gate.
    Frame(u32),
    /// A gate that is not open.
    Closed,
    /// An open gate whose frame and next gate are not within the length.
    Cut,
}

/// What stands behind the payloads of a journal.
#[derive(Drop)]
pub enum End {
    /// A gate that is not open: more can be sealed.
    Whole(Log),
    /// An open gate at this place, whose frame and next gate are not within the length. Nothing can be sealed.
    Cut { gate: u64 },
}

/// The payloads of a journal, and how they end.
#[derive(Drop)]
pub struct Survey {
    pub places: Places,
    pub end: End,
}

impl End {
    /// The place of the gate behind the payloads.
    pub fn gate(&self) -> u64
        ensures { result ≡ end_gate self.now }
    {
        match self {
            End::Whole(log) => log.last_gate(),
            End::Cut { gate } => *gate,
        }
    }

    /// Whether the gate behind the payloads is open, and its frame is cut.
    fn is_cut(&self) -> bool
        ensures { result ≡ cut_there self.now }
    {
        match self {
            End::Whole(_) => false,
            End::Cut { .. } => true,
        }
    }
}

impl Survey {
    /// Payloads at these places, and a gate behind them that is not open.
    pub(crate) fn whole(gate: u64, places: Places) -> Survey
        ensures gate { end_gate result.end ≡ gate }
        ensures open { leaves_open result.end ≡ true }
        ensures places { result.places ≡ places }
        ensures is_cut { cut_there result.end ≡ false }
    {
        Survey {
            places,
            end: End::Whole(Log::at(gate)),
        }
    }

    /// Payloads at these places, and an open gate behind them whose frame is cut.
    pub(crate) fn cut(gate: u64, places: Places) -> Survey
        ensures gate { end_gate result.end ≡ gate }
        ensures open { leaves_open result.end ≡ true }
        ensures places { result.places ≡ places }
        ensures is_cut { cut_there result.end ≡ true }
    {
        Survey {
            places,
            end: End::Cut { gate },
        }
    }

    /// Whether nothing stands there, whole or cut.
    pub(crate) fn is_empty(&self) -> bool
        ensures { IsTrue result ↔ ((cut_there self.now.end ≡ false) × (self.now.places ≡ [])) }
    {
        !self.end.is_cut() && self.places.is_empty()
    }
}
