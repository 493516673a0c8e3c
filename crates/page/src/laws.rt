//! Laws that are handed out.

ghost use Rattle.std.specs.Prelude.{◌≡◌, true};
ghost use Rattle.std.specs.List.{list_all};
ghost use Rattle.page.specs.Escaping.{has_references_only, is_no_markup, is_safe, escaped, shown_letters};

/// Whatever a text is, no letter that is shown of it begins markup, ends an attribute, is hidden or turns the order of others, and each ampersand begins one of
/// the four references; and so none of its bytes is one of markup.
pub fn what_is_shown_is_safe(text: &[u8])
    ensures letters { list_all is_safe (shown_letters text.now) ≡ true }
    ensures references { has_references_only (shown_letters text.now) ≡ true }
    ensures bytes { list_all is_no_markup (escaped text.now) ≡ true }
{}
