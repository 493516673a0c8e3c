//! Parts of the lines that strace writes.

ghost use Rattle.std.specs.Prelude.{◌≡◌, ◌≤◌, ◌++◌, IfSome, length};
ghost use Rattle.std.specs.List.{list_all};
ghost use Rattle.std.specs.Str.{bytes_eq};
ghost use Rattle.records.specs.Calls.{is_call_name, is_call_name_byte};

use crate::words::has_name_bytes;
use texts::number_up_to;

/// Whether two texts have the same bytes.
pub(crate) fn same_bytes(text: &[u8], other: &[u8]) -> bool
    ensures { result ≡ bytes_eq text.now other.now }
{
    text == other
}

/// What stands behind a beginning.
pub(crate) fn after<'t>(text: &'t [u8], beginning: &[u8]) -> Option<&'t [u8]>
    ensures { IfSome result (λ rest. text.entry.now ≡ beginning.now ++ rest.now) }
{
    text.strip_prefix(beginning)
}

/// What stands before an ending.
pub(crate) fn before<'t>(text: &'t [u8], ending: &[u8]) -> Option<&'t [u8]>
    ensures { IfSome result (λ front. text.entry.now ≡ front.now ++ ending.now) }
{
    text.strip_suffix(ending)
}

/// What stands between a beginning and an ending.
pub(crate) fn between<'t>(text: &'t [u8], beginning: &[u8], ending: &[u8]) -> Option<&'t [u8]> {
    match after(text, beginning) {
        Some(rest) => before(rest, ending),
        None => None,
    }
}

/// The text without the spaces that it begins with.
pub(crate) fn without_spaces(text: &[u8]) -> &[u8] {
    let mut rest = text;
    while let [b' ', more @ ..] = rest {
        rest = more;
    }
    rest
}

/// The number in decimal digits, if 32 bits hold it.
pub(crate) fn number(word: &[u8]) -> Option<u32> {
    number_up_to(word, u32::MAX).ok()
}

/// The number that stands behind a beginning and is all of the rest, if 32 bits hold it.
pub(crate) fn number_after(text: &[u8], beginning: &[u8]) -> Option<u32> {
    match after(text, beginning) {
        Some(digits) => number(digits),
        None => None,
    }
}

/// Where a text first has these bytes.
pub(crate) fn offset_of(text: &[u8], bytes: &[u8]) -> Option<usize>
    ensures { IfSome result (λ at. at ≤ length text.now) }
{
    for at in 0..text.len() {
        if text[at..].starts_with(bytes) {
            return Some(at);
        }
    }
    None
}

/// Whether a word is a name: letters, digits and `_`, and one of them at least.
pub(crate) fn is_name(word: &[u8]) -> bool
    ensures { result ≡ is_call_name word.now }
{
    let has_name_bytes = has_name_bytes(word);
    !word.is_empty() && has_name_bytes
}
