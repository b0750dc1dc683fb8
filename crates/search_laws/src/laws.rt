//! These functions do nothing: their contracts are laws of the definitions.
ghost use Rattle.std.specs.Prelude.{◌≡◌, ◌++◌, ℕ, List, [], ◌∷◌, false, true, filter, map};
ghost use Rattle.std.specs.List.{list_any};
ghost use Rattle.undo_base.specs.declared.asks.Section.TheVariants as section;
ghost use Rattle.header_fields.specs.Lines.{joined};
ghost use Rattle.header_fields.specs.Fields.{fields_of};
ghost use Rattle.header_fields.specs.Header.{empty_line_of};
ghost use Rattle.header_fields.specs.Values.{is_named, value_of};
ghost use Rattle.imap_fetch.specs.declared.messages.Message.{Message};
ghost use Rattle.imap_session.specs.Searching.{facts_of, found, is_of_more, is_of_texts, is_too_large, last_uid};
ghost use Rattle.imap_session.specs.declared.dialog.Searching.{Searching};
ghost use Rattle.imap_stream.specs.Sets.{covered, greatest_of};
ghost use Rattle.imap_stream.specs.declared.picks.SetRange.{SetRange};
ghost use Rattle.imap_view.specs.declared.messages.Known.{Known};
ghost use Rattle.mail_sections.specs.Sections.{is_listed, section_in};
ghost use Rattle.search_lines.specs.Leaves.{range_of};
ghost use Rattle.search_verb.specs.Asked.{Asked};
ghost use Rattle.search_verb.specs.Asked as sought;
ghost use Rattle.search_verb.specs.Meets.{Facts, meets, needed};
ghost use Rattle.search_verb.specs.Occurs.{occurs_in};

/// A key that looks at no text means the same of a message whatever its text is, and one that looks at nothing whatever its size is.
pub fn what_is_not_looked_at_does_not_count()
    ensures text { (asked : Asked) (what : Facts) (text : List ℕ) → is_of_texts (needed asked) ≡ false → meets asked (record what { text = text }) ≡ meets asked what }
    ensures size { (asked : Asked) (what : Facts) (size : ℕ) → is_of_more (needed asked) ≡ false → meets asked (record what { size = size }) ≡ meets asked what }
{}

/// What SEARCH looks at of a text is what FETCH shows of it (RFC 3501, 6.4.4 and 6.4.5). BODY looks at the section TEXT, TEXT at the
/// whole, and a field's key at the values that HEADER.FIELDS with this one name shows.
pub fn searches_look_at_what_fetches_show()
    ensures body { (string : List ℕ) (what : Facts) → meets (sought.Body string) what ≡ occurs_in string (section_in section.Text what.text) }
    ensures text { (string : List ℕ) (what : Facts) → meets (sought.Text string) what ≡ occurs_in string (section_in section.Whole what.text) }
    ensures named { (name field : List ℕ) → is_named name field ≡ is_listed (name ∷ []) field }
    ensures fields { (name string : List ℕ) (what : Facts) → meets (sought.Field name string) what ≡ list_any (λ field. occurs_in string (value_of field)) (filter (is_listed (name ∷ [])) (fields_of what.text)) }
    ensures shown { (name text : List ℕ) → section_in (section.Fields (name ∷ [])) text ≡ joined (filter (is_listed (name ∷ [])) (fields_of text)) ++ empty_line_of text }
{}

/// A set means in a SEARCH what it means in a FETCH (RFC 3501, 6.4.4, 6.4.8 and 9). A message is among its places or its UIDs exactly
/// where the set covers its number, and `*` is the same greatest UID of the view.
pub fn sets_mean_the_same_in_searches_and_fetches()
    ensures places { (set : List SetRange) (what : Facts) → meets (sought.Places (map range_of set)) what ≡ covered what.last_place set what.place }
    ensures uids { (set : List SetRange) (what : Facts) → meets (sought.Uids (map range_of set)) what ≡ covered what.last_uid set what.uid }
    ensures last { (view : List Known) → last_uid view ≡ greatest_of true (map (λ (known : Known). known.uid) view) }
{}

/// A SEARCH finds exactly the messages of the view that are there and match, each by its own text, in the view's order. The texts that
/// it was given are theirs where it looks at texts (RFC 3501, 6.4.4).
pub fn searches_find_what_matches()
    ensures { (q : Searching) (own : Message → List ℕ) (texts : List (List ℕ)) → is_too_large q ≡ false → (is_of_texts (needed q.key) ≡ true → texts ≡ map own q.rows)
        → found q texts ≡ filter (λ (m : Message). meets q.key (facts_of q m (own m))) q.rows }
{}
