//! What the definitions say of a text.
ghost use Rattle.std.specs.Prelude.{◌≡◌, ◌++◌, filter, true, false};
ghost use Rattle.header_fields.specs.Lines.{joined};
ghost use Rattle.header_fields.specs.Fields.{fields_of};
ghost use Rattle.header_fields.specs.Header.{header_of, behind_header, empty_line_of};
ghost use Rattle.mail_sections.specs.Sections.{is_wanted};
ghost use Rattle.mail_sections.specs.Laws.{Parts};

use undo_base::Names;

/// The header and what follows it are the whole text.
pub fn header_and_text_are_all(text: &[u8])
    ensures { header_of text.now ++ behind_header text.now ≡ text.now }
{
    header_fields::header_and_rest_are_the_text(text);
}

/// The fields and the empty line are the header.
pub fn fields_are_the_header(text: &[u8])
    ensures { joined (fields_of text.now) ++ empty_line_of text.now ≡ header_of text.now }
{
    header_fields::fields_are_the_header(text);
}

/// The fields with a listed name and those with none are the fields of the header, each once and in order.
#[tactic(auto, using(crate::proofs::Together::parted))]
pub fn listed_and_others_are_all(text: &[u8], names: &Names)
    ensures { Parts (fields_of text.now) (filter (is_wanted true names.now) (fields_of text.now)) (filter (is_wanted false names.now) (fields_of text.now)) }
{}
