//! REAL=MODEL: where the places of a record lie in a task, as words say it.

ghost use Rattle.std.specs.Prelude.{◌≡◌, ◌++◌, IfOk, OnOk, is_some, map, option_map, string_bytes};
ghost use Rattle.std.specs.List.{list_all};
ghost use Rattle.follow.specs.Views.{placings_of};
ghost use Rattle.answers.specs.PlacingViews.{placing_seen};
ghost use Rattle.lookup.specs.Paths.{is_absolute};
ghost use Rattle.answers.specs.PlacingWords.{listed, placed_by, placing_in, placings_in, without_slash};

use follow::Placing;
use rights::Memory;
use std::alloc::Global;
use texts::first_part;

/// The places that a word names, each without a slash at its end.
#[derive(Clone, Copy)]
struct PlacingWord<'a> {
    real: &'a [u8],
    model: &'a [u8],
}

/// Whether a text is a path from the root.
fn is_absolute(text: &[u8]) -> bool
    ensures { result ≡ is_absolute text.now }
{
    matches!(text, [b'/', ..])
}

/// A text without the slash at its end, if there is one.
fn without_slash(text: &[u8]) -> &[u8]
    ensures { result.now ≡ without_slash text.now }
{
    match text.strip_suffix(b"/".as_slice()) {
        Some(front) => front,
        None => text,
    }
}

/// What is named by two paths from the root.
fn placed_by<'a>(real: &'a [u8], model: &'a [u8]) -> Option<PlacingWord<'a>>
    ensures { option_map placing_seen result ≡ placed_by real.now model.now }
{
    if !is_absolute(real) || !is_absolute(model) {
        return None;
    }
    Some(PlacingWord {
        real: without_slash(real),
        model: without_slash(model),
    })
}

/// What a word names, if it is REAL=MODEL.
#[tactic(auto, using(crate::proofs::PlacingLaws::too_many))]
fn placing_in<'a>(word: &'a str) -> Option<PlacingWord<'a>>
    ensures { option_map placing_seen result ≡ placing_in word.now }
{
    let (real, Some(model)) = first_part(word.as_bytes(), b'=') else {
        return None;
    };
    let (model, None) = first_part(model, b'=') else {
        return None;
    };
    placed_by(real, model)
}

/// Whether each word is REAL=MODEL.
pub(crate) fn are_placings(words: &[String]) -> bool
    ensures { result ≡ list_all (λ word. is_some (placing_in word)) (map string_bytes words.now) }
{
    for word in words {
        if placing_in(word.as_str()).is_none() {
            return false;
        }
    }
    true
}

/// Adds what a word names, if it names something.
fn add_placing(
    alloc: Global,
    placings: &mut Vec<Placing>,
    named: Option<PlacingWord<'_>>,
) -> Result<(), Memory>
    ensures { OnOk result (placings_of placings.new.items ≡ placings_of placings.old.items ++ listed (option_map placing_seen named.entry)) }
{
    if let Some(named) = named {
        let real = Vec::from_slice(alloc, named.real)?;
        let model = Vec::from_slice(alloc, named.model)?;
        placings.push(Placing { real, model })?;
    }
    Ok(())
}

/// What words name that are REAL=MODEL.
pub(crate) fn placings_in(alloc: Global, words: &[String]) -> Result<Vec<Placing>, Memory>
    ensures { IfOk result (λ placings. placings_of placings.items ≡ placings_in (map string_bytes words.now)) }
{
    let mut placings = Vec::new(alloc);
    for word in words {
        add_placing(alloc, &mut placings, placing_in(word.as_str()))?;
    }
    Ok(placings)
}
