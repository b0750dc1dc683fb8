//! What the definitions of the dialog mean.
ghost use Rattle.std.specs.Prelude.{◌≡◌, ℕ, List, [], map, Some};
ghost use Rattle.smtp_lines.specs.Line.{kept_of};
ghost use Rattle.smtp_session.specs.Text.{fits, text_after, text_of};

/// A text that came line by line, each as a cutter keeps it, is the text that these lines make, and none exactly where
/// that has more than 1,048,576 octets.
pub fn texts_are_their_lines()
    ensures { (lines : List (List ℕ)) → text_after (Some []) (map kept_of lines) ≡ fits (text_of lines) }
{}
