//! Which known word was meant by another.

ghost use Rattle.std.specs.Prelude.{◌≡◌, map, option_map};
ghost use Rattle.std.specs.Str.{str_eq_ignore_ascii_case};
ghost use Rattle.task_text.specs.NearWords as near;

use crate::places::part;

/// Whether at most one edit leads from a word to another: a byte put in, left out or changed, or two neighbours swapped.
#[tactic(auto, using(crate::proofs::NearLaws::no_word, crate::proofs::NearLaws::no_known))]
fn is_within_one_edit(word: &[u8], known: &[u8]) -> bool
    ensures { result ≡ near.is_within_one_edit word.now known.now }
{
    let (mut word, mut known) = (word, known);
    while let [byte, rest @ ..] = word {
        let [other, behind @ ..] = known else {
            return word.len() <= 1;
        };
        if byte != other {
            return rest == behind || rest == known || word == behind || is_swapped(word, known);
        }
        word = rest;
        known = behind;
    }
    known.len() <= 1
}

/// Whether two words differ in the order of their first two bytes alone.
fn is_swapped(word: &[u8], known: &[u8]) -> bool
    ensures { result ≡ near.is_swapped word.now known.now }
{
    match (word, known) {
        ([first, second, rest @ ..], [other, next, behind @ ..]) => {
            first == next && second == other && rest == behind
        }
        _ => false,
    }
}

/// Whether two words are the same but for their case.
fn is_alike(word: &[u8], known: &[u8]) -> bool
    ensures { result ≡ str_eq_ignore_ascii_case word.now known.now }
{
    word.eq_ignore_ascii_case(known)
}

/// Whether a word is a known one with `CAP_` before it, but for its case.
fn is_prefixed(word: &[u8], known: &[u8]) -> bool
    ensures { result ≡ near.is_prefixed known.now word.now }
{
    if !word.starts_with(b"CAP_") {
        return false;
    }
    is_alike(part(word, 4, word.len()), known)
}

/// Whether a word is meant for a known one: but for its case, or with `CAP_` before it, or by one edit where one of them has three bytes.
fn is_meant(word: &[u8], known: &[u8]) -> bool
    ensures { result ≡ near.is_meant known.now word.now }
{
    if is_alike(word, known) {
        return true;
    }
    if is_prefixed(word, known) {
        return true;
    }
    if word.len().max(known.len()) < 3 {
        return false;
    }
    is_within_one_edit(word, known)
}

/// The first known word that may be meant, if there is one.
pub(crate) fn meant<'w>(word: &[u8], known: &[&'w str]) -> Option<&'w str>
    ensures { option_map (λ one. one.now) result ≡ near.meant_of (map (λ one. one.now) known.now) word.now }
{
    for one in known {
        if is_meant(word, one.as_bytes()) {
            return Some(*one);
        }
    }
    None
}

/// Whether a word is one of these.
pub(crate) fn is_known(word: &[u8], known: &[&str]) -> bool
    ensures { result ≡ near.is_one_of (map (λ one. one.now) known.now) word.now }
{
    for one in known {
        if word == one.as_bytes() {
            return true;
        }
    }
    false
}
