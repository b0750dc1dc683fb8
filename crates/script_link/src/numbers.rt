//! Numbers of a script's lines.
ghost use Rattle.std.specs.Prelude.{◌≡◌};
ghost use Rattle.script_link.specs.Numbers.{moment_of, conn_of};

use undo_base::{LAST_MOMENT, read_number};

/// The greatest number of a connection.
const MOST_CONNECTIONS: u64 = 1000;

/// A moment: seconds since 1970 in UTC, up to the end of the year 9999.
pub fn read_moment(text: &[u8]) -> Option<u64>
    ensures { result ≡ moment_of text.now }
{
    read_number(0, LAST_MOMENT, text)
}

/// The number of a connection.
pub fn read_conn(text: &[u8]) -> Option<u32>
    ensures { result ≡ conn_of text.now }
{
    read_number(1, MOST_CONNECTIONS, text).map(|conn| conn as u32)
}
