//! Bytes in double quotes.

ghost use Rattle.std.specs.Prelude.{◌≡◌, ◌∷◌, []};
ghost use Rattle.texts.specs.Hex.{hex_of};
ghost use Rattle.texts.specs.PageViews.{Adds};
ghost use Rattle.records.specs.Quoted.{byte_text, effect, given_byte, is_plain, quoted, unquoted};
ghost use Rattle.records.specs.QuotedViews.{effect_seen, progress_seen};
ghost use Rattle.records.specs.ReadingViews.{Reads};

use crate::faults::LineFault;
use std::alloc::Global;
use texts::{Page, one_digit, read_hex};

/// How far a quoted text is read.
#[derive(Clone, Copy)]
enum Progress {
    /// Its first quote is awaited.
    Before,
    Within,
    /// Behind a backslash.
    Escaped,
    /// Behind a backslash and its letter.
    Lettered,
    /// Behind the first digit of an escape.
    Halfway(u8),
    /// Behind its last quote.
    Behind,
}

/// What a byte of a quoted text does.
enum Effect {
    Leads(Progress),
    /// It completes a byte of the text, and leads on within it.
    Gives(u8),
    Stops,
}

/// Whether a byte stands for itself.
fn is_plain(byte: u8) -> bool
    ensures { result ≡ is_plain byte }
{
    byte >= 33 && byte <= 126 && byte != b'"' && byte != b'\\'
}

/// Adds a byte: itself, or an escape.
fn add_byte(page: &mut Page, byte: u8)
    ensures { Adds page.old page.new (byte_text byte) }
{
    if is_plain(byte) {
        page.bytes(&[byte]);
        return;
    }
    page.bytes(&[b'\\', b'x', one_digit(byte / 16 % 16), one_digit(byte % 16)]);
}

/// Adds bytes in double quotes.
#[tactic(auto, unfolding(crate::specs::Quoted::quoted))]
pub(crate) fn add_quoted(page: &mut Page, bytes: &[u8])
    ensures { Adds page.old page.new (quoted bytes.now) }
{
    page.bytes(b"\"");
    for byte in bytes {
        add_byte(page, *byte);
    }
    page.bytes(b"\"");
}

/// What both digits of an escape stand for.
fn given(high: u8, low: u8) -> Effect
    ensures { effect_seen result ≡ given_byte (hex_of 2 (high ∷ low ∷ [])) }
{
    match read_hex(&[high, low], 2) {
        Some(byte) => Effect::Gives(byte as u8),
        None => Effect::Stops,
    }
}

/// What the next byte does.
#[tactic(auto, unfolding(crate::specs::Quoted::effect))]
fn effect_of(progress: Progress, byte: u8) -> Effect
    ensures { effect_seen result ≡ effect (progress_seen progress) byte }
{
    match progress {
        Progress::Before if byte == b'"' => Effect::Leads(Progress::Within),
        Progress::Within if byte == b'"' => Effect::Leads(Progress::Behind),
        Progress::Within if byte == b'\\' => Effect::Leads(Progress::Escaped),
        Progress::Within if is_plain(byte) => Effect::Gives(byte),
        Progress::Escaped if byte == b'x' => Effect::Leads(Progress::Lettered),
        Progress::Lettered => Effect::Leads(Progress::Halfway(byte)),
        Progress::Halfway(digit) => given(digit, byte),
        Progress::Before | Progress::Within | Progress::Escaped | Progress::Behind => Effect::Stops,
    }
}

/// The bytes of a quoted text.
#[tactic(auto, unfolding(crate::specs::Quoted::unquoted))]
pub(crate) fn unquoted(alloc: Global, word: &[u8]) -> Result<Vec<u8>, LineFault>
    ensures { Reads (λ bytes. bytes.items) result (unquoted word.now) }
{
    let mut bytes = Vec::new(alloc);
    let mut progress = Progress::Before;
    for byte in word {
        match effect_of(progress, *byte) {
            Effect::Leads(next) => progress = next,
            Effect::Gives(given) => {
                bytes.push(given)?;
                progress = Progress::Within;
            }
            Effect::Stops => return Err(LineFault::Form),
        }
    }
    match progress {
        Progress::Behind => Ok(bytes),
        _ => Err(LineFault::Form),
    }
}
