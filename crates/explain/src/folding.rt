//! Lines of at most 80 columns.

ghost use Rattle.std.specs.Prelude.{◌≡◌, false};
ghost use Rattle.explain.specs.Listing.{Folds};
ghost use Rattle.explain.specs.ListingViews.{AddsSome};

use texts::{Page, first_part, say};

/// How many columns a line has at most, unless a single word needs more.
const COLUMNS: usize = 80;

/// How far a line is indented that goes on.
const INDENT: usize = 4;

/// Adds the words of a text that begins at a column.
fn add_words(page: &mut Page, column: usize, text: &[u8])
    ensures { AddsSome (Folds text.now) page.old page.new }
{
    let (word, behind) = first_part(text, b' ');
    say!(page; word);
    let column = column.saturating_add(word.len());
    match behind {
        None => {}
        Some(rest) => {
            let (next, _) = first_part(rest, b' ');
            if column.saturating_add(1).saturating_add(next.len()) > COLUMNS {
                say!(page; "\n    ");
                add_words(page, INDENT, rest)
            } else {
                say!(page; " ");
                add_words(page, column.saturating_add(1), rest)
            }
        }
    }
}

/// A text that goes on in another line, indented, before each word that would pass the last column. It begins at a column, counted from
/// 0 by bytes; words are parted by single spaces. If memory was refused for some of the text, it is so of this one too.
pub(crate) fn folded(text: &Page, column: usize) -> Page
    ensures folds { result.is_short ≡ false → Folds text.now.bytes.items result.bytes.items }
    ensures whole { result.is_short ≡ false → text.now.is_short ≡ false }
{
    let mut page = Page::new(text.alloc());
    add_words(&mut page, column, text.as_bytes());
    if text.finish().is_err() {
        page.fail();
    }
    page
}
