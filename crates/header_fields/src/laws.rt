//! What the definitions say of a text.
ghost use Rattle.std.specs.Prelude.{◌≡◌, ◌++◌, ℕ, true, List};
ghost use Rattle.undo_base.specs.Name.{is_name};
ghost use Rattle.header_fields.specs.Lines.{lines_of, joined};
ghost use Rattle.header_fields.specs.Fields.{fields_of};
ghost use Rattle.header_fields.specs.Values.{is_field_name};
ghost use Rattle.header_fields.specs.Header.{empty_line_of, header_of, behind_header};

use crate::header::header_len;

/// The lines of a text are the text, each byte once and in order.
#[tactic(auto, using(crate::proofs::Together::lines_joined))]
pub fn lines_are_the_text(text: &[u8])
    ensures { joined (lines_of text.now) ≡ text.now }
{}

/// The fields and the empty line are the header.
#[tactic(auto, using(crate::proofs::Together::fields_together))]
pub fn fields_are_the_header(text: &[u8])
    ensures { joined (fields_of text.now) ++ empty_line_of text.now ≡ header_of text.now }
{}

/// The header and what follows it are the whole text.
#[tactic(auto, using(crate::proofs::Together::front_and_rest))]
pub fn header_and_rest_are_the_text(text: &[u8])
    ensures { header_of text.now ++ behind_header text.now ≡ text.now }
{
    header_len(text);
}

/// A name by which a field can be asked for is a name.
#[tactic(auto, using(crate::proofs::FieldNames::field_name))]
pub fn field_names_are_names()
    ensures { (name : List ℕ) → is_field_name name ≡ true → is_name name ≡ true }
{}
