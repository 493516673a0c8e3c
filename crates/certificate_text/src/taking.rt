//! How the words of a line are taken, and how two parts of it are joined.

ghost use Rattle.std.specs.Prelude.{◌≡◌};
ghost use Rattle.std.specs.Str.{bytes_eq};
ghost use Rattle.certificate_text.specs.KeywordViews.{keyword_text};
ghost use Rattle.certificate_text.specs.Views.{IsNextWord};
ghost use Rattle.certificate_text.specs.TakingViews.{AreNextFour, AreNextTwo, AreThree, AreTwo, IsOne, both_parts};

use crate::faults::LineFault;
use crate::keywords::Keyword;
use texts::Words;

/// Whether a word is this one.
pub(crate) fn is_word(word: &[u8], keyword: Keyword) -> bool
    ensures { result ≡ bytes_eq word.now (keyword_text keyword) }
{
    word == keyword.as_bytes()
}

/// The next word, which has to be there.
pub(crate) fn next_word<'t>(words: &mut Words<'t>) -> Result<&'t [u8], LineFault>
    ensures { IsNextWord result words.old words.new }
{
    match words.take() {
        Some(word) => Ok(word),
        None => Err(LineFault::Syntax),
    }
}

/// The next two words, if they are there.
pub(crate) fn next_two<'t>(words: &mut Words<'t>) -> Option<(&'t [u8], &'t [u8])>
    ensures { AreNextTwo result words.old words.new }
{
    let first = words.take()?;
    let second = words.take()?;
    Some((first, second))
}

/// The word, if there is one alone.
pub(crate) fn one_word(mut words: Words<'_>) -> Option<&[u8]>
    ensures { IsOne result words.entry }
{
    let word = words.take()?;
    if words.is_done() { Some(word) } else { None }
}

/// The words, if they are two.
pub(crate) fn two_words(mut words: Words<'_>) -> Option<(&[u8], &[u8])>
    ensures { AreTwo result words.entry }
{
    let pair = next_two(&mut words)?;
    if words.is_done() { Some(pair) } else { None }
}

/// The words, if they are three: the first two, and the third.
pub(crate) fn three_words(mut words: Words<'_>) -> Option<((&[u8], &[u8]), &[u8])>
    ensures { AreThree result words.entry }
{
    let pair = next_two(&mut words)?;
    let third = one_word(words)?;
    Some((pair, third))
}

/// The next four words, if they are there: the first two, and the others.
pub(crate) fn next_four<'t>(
    words: &mut Words<'t>,
) -> Option<((&'t [u8], &'t [u8]), (&'t [u8], &'t [u8]))>
    ensures { AreNextFour result words.old words.new }
{
    let pair = next_two(words)?;
    let others = next_two(words)?;
    Some((pair, others))
}

/// Two parts of a line, or of their faults the one that counts.
pub(crate) fn both<A: Copy, B: Copy>(
    first: Result<A, LineFault>,
    second: Result<B, LineFault>,
) -> Result<(A, B), LineFault>
    ensures { result ≡ both_parts first second }
{
    match first {
        Ok(first) => match second {
            Ok(second) => Ok((first, second)),
            Err(fault) => Err(fault),
        },
        Err(LineFault::Syntax) => Err(LineFault::Syntax),
        Err(LineFault::Limit) => match second {
            Ok(_) | Err(LineFault::Limit) => Err(LineFault::Limit),
            Err(LineFault::Syntax) => Err(LineFault::Syntax),
        },
    }
}
