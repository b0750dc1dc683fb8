//! Numbers in digits.
//!
//! Numbers are read after the test on digits and the leading zero, so digits of any length are decided.
ghost use Rattle.std.specs.Prelude.{◌≡◌};
ghost use Rattle.command_words.specs.Numbers.{point_of, port_of, rounds_of};

use undo_base::read_number;

/// A port of TCP, 1 to 65535.
pub fn read_port(word: &str) -> Option<u16>
    ensures { result ≡ port_of word.now }
{
    read_number(1, 65535, word.as_bytes()).map(|port| port as u16)
}

/// How many rounds `grow` takes, 3 to 100000.
pub fn read_rounds(word: &str) -> Option<u32>
    ensures { result ≡ rounds_of word.now }
{
    read_number(3, 100000, word.as_bytes()).map(|rounds| rounds as u32)
}

/// The number of an item, or 0.
pub fn read_point(word: &str) -> Option<u32>
    ensures { result ≡ point_of word.now }
{
    read_number(0, 4294967295, word.as_bytes()).map(|point| point as u32)
}
