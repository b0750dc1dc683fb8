//! The messages that go.
ghost use Rattle.std.specs.Prelude.{◌≡◌, IfOk};
ghost use Rattle.imap_text.specs.Answers as spec;

use crate::write::push_number_line;
use std::alloc::Global;
use undo_base::{NoMemory, Places, Text};

/// The messages that go, by their rising numbers in the view, from 1, before any goes: each that goes lowers the
/// numbers behind it by one (RFC 3501, 7.4.1).
pub fn render_expunge(alloc: Global, places: &Places) -> Result<Text, NoMemory>
    ensures { IfOk result (λ text. text ≡ spec.expunge_lines places.now) }
{
    let mut out = Text::new(alloc);
    let places = places.as_slice();
    for (gone, place) in places.iter().enumerate() {
        let number = (*place as u64).saturating_sub(gone as u64);
        push_number_line(alloc, &mut out, b"", number, b" EXPUNGE")?;
    }
    Ok(out)
}
