//! What words of a line stand for.

ghost use Rattle.std.specs.Prelude.{◌≡◌, map};
ghost use Rattle.std.specs.List.{list_all};
ghost use Rattle.rights.specs.Views.{call_of};
ghost use Rattle.records.specs.Calls.{Called, Omitted, is_call_name, is_call_name_byte};
ghost use Rattle.records.specs.EntryViews.{event_seen, outcome_seen, record_span_seen, wanted_seen};
ghost use Rattle.records.specs.OperandViews.{kind_seen, operand_seen};
ghost use Rattle.records.specs.ReadingViews.{Reads, Takes};
ghost use Rattle.records.specs.Readings.{left_out_of, made_of, real_number_at, real_operand_at, operands_at, outcome_at, read_number, read_word, record_span_at, wanted_of};
ghost use Rattle.std.specs.Prelude.{option_map};

use crate::bindings::read_bindings;
use crate::entries::{Event, LeftOut, MadeCall, Outcome, Span, WantedRight};
use crate::faults::LineFault;
use crate::names;
use crate::operands::{Kind, Operand, kind_of};
use crate::quoting::unquoted;
use crate::strace_texts::{is_name, same_bytes};
use crate::taking::Rest;
use call_facts::{roles_of, sets};
use rights::Call;
use std::alloc::Global;
use texts::number_up_to;

/// The number in decimal digits, without a leading zero, if 32 bits hold it.
pub(crate) fn number(word: &[u8]) -> Result<u32, LineFault>
    ensures { Reads (λ number. number) result (read_number word.now) }
{
    match number_up_to(word, u32::MAX) {
        Ok(number) => Ok(number),
        Err(_) => Err(LineFault::Form),
    }
}

/// The next word, as a number.
#[tactic(auto, unfolding(crate::specs::Readings::real_number_at))]
pub(crate) fn take_number(words: &mut Rest<'_>) -> Result<u32, LineFault>
    ensures { Takes real_number_at (λ number. number) result words.old words.new }
{
    let Some(word) = words.take() else {
        return Err(LineFault::Form);
    };
    number(word)
}

/// The next words, as an operand of this kind.
#[tactic(auto, unfolding(crate::specs::Readings::real_operand_at, crate::specs::Readings::choice_at))]
fn take_operand(alloc: Global, words: &mut Rest<'_>, kind: Kind) -> Result<Operand, LineFault>
    ensures { Takes (real_operand_at (kind_seen kind)) operand_seen result words.old words.new }
{
    if let Kind::Directory = kind {
        return Ok(Operand::Directory(words.take_if(b"dir")));
    }
    let Some(word) = words.take() else {
        return Err(LineFault::Form);
    };
    match kind {
        Kind::Number => Ok(Operand::Number(number(word)?)),
        Kind::Path => Ok(Operand::Path(unquoted(alloc, word)?)),
        Kind::Flags => match sets::read_flags(word) {
            Some(flags) => Ok(Operand::Flags(flags)),
            None => Err(LineFault::Form),
        },
        Kind::Rights => Ok(Operand::Rights(sets::read_rights(word))),
        // A `Directory` was taken above.
        Kind::Commands | Kind::Directory => Ok(Operand::Commands(sets::read_commands(word))),
    }
}

/// The next words, as the operands of a call.
#[tactic(auto, unfolding(crate::specs::Readings::operands_at))]
fn take_operands(alloc: Global, words: &mut Rest<'_>, call: Call) -> Result<Vec<Operand>, LineFault>
    ensures { Takes (operands_at (call_of call)) (λ operands. map operand_seen operands.items) result words.old words.new }
{
    let roles = roles_of(call);
    let mut operands = Vec::new(alloc);
    for role in roles {
        operands.push(take_operand(alloc, words, kind_of(*role))?)?;
    }
    Ok(operands)
}

/// The next words, as an outcome.
#[tactic(auto, unfolding(crate::specs::Readings::outcome_at))]
fn take_outcome(words: &mut Rest<'_>) -> Result<Outcome, LineFault>
    ensures { Takes outcome_at outcome_seen result words.old words.new }
{
    let Some(mark) = words.take() else {
        return Err(LineFault::Form);
    };
    let Some(word) = words.take() else {
        return Err(LineFault::Form);
    };
    if same_bytes(mark, b"=") {
        Ok(Outcome::Success(number(word)?))
    } else if same_bytes(mark, b"!") {
        Ok(Outcome::Failure(names::find_error(word)?))
    } else {
        Err(LineFault::Form)
    }
}

/// The words behind a call's name.
#[tactic(auto, unfolding(crate::specs::Readings::made_of))]
pub(crate) fn read_made(alloc: Global, call: Call, mut words: Rest<'_>) -> Result<Event, LineFault>
    ensures { Reads event_seen result (option_map Called (made_of (call_of call) words.entry)) }
{
    let operands = take_operands(alloc, &mut words, call)?;
    let outcome = take_outcome(&mut words)?;
    let bound = read_bindings(alloc, words)?;
    Ok(Event::Called(MadeCall {
        call,
        operands,
        outcome,
        bindings: bound.bindings,
        bytes: bound.bytes,
    }))
}

/// Whether a byte may stand in a name.
fn may_stand_in_name(byte: u8) -> bool
    ensures { result ≡ is_call_name_byte byte }
{
    byte.is_ascii_lowercase() || byte.is_ascii_uppercase() || byte.is_ascii_digit() || byte == b'_'
}

/// Whether all bytes may stand in a name.
pub(crate) fn has_name_bytes(word: &[u8]) -> bool
    ensures { result ≡ list_all is_call_name_byte word.now }
{
    for byte in word {
        if !may_stand_in_name(*byte) {
            return false;
        }
    }
    true
}

/// The word, as a name.
fn read_name(alloc: Global, word: &[u8]) -> Result<Vec<u8>, LineFault>
    ensures { Reads (λ name. name.items) result (read_word word.now) }
{
    if is_name(word) {
        Ok(Vec::from_slice(alloc, word)?)
    } else {
        Err(LineFault::Form)
    }
}

/// The words behind a name that is left out: a right and a descriptor, or none.
#[tactic(auto, unfolding(crate::specs::Readings::wanted_of))]
fn read_wanted(alloc: Global, mut words: Rest<'_>) -> Result<Option<WantedRight>, LineFault>
    ensures { Reads (option_map wanted_seen) result (wanted_of words.entry) }
{
    let Some(right) = words.take() else {
        return Ok(None);
    };
    let descriptor = take_number(&mut words)?;
    if !words.is_done() {
        return Err(LineFault::Form);
    }
    let right = read_name(alloc, right)?;
    Ok(Some(WantedRight { right, descriptor }))
}

/// The words behind `-`.
#[tactic(auto, unfolding(crate::specs::Readings::left_out_of))]
pub(crate) fn read_left_out(alloc: Global, mut words: Rest<'_>) -> Result<Event, LineFault>
    ensures { Reads event_seen result (option_map Omitted (left_out_of words.entry)) }
{
    let Some(reason) = words.take() else {
        return Err(LineFault::Form);
    };
    let Some(name) = words.take() else {
        return Err(LineFault::Form);
    };
    let reason = names::find_reason(reason)?;
    let name = read_name(alloc, name)?;
    let wanted = read_wanted(alloc, words)?;
    Ok(Event::Omitted(LeftOut {
        reason,
        name,
        wanted,
    }))
}

/// The next words, as a span.
#[tactic(auto, unfolding(crate::specs::Readings::record_span_at))]
pub(crate) fn take_span(words: &mut Rest<'_>) -> Result<Span, LineFault>
    ensures { Takes record_span_at record_span_seen result words.old words.new }
{
    let first = take_number(words)?;
    let last = take_number(words)?;
    if first > last {
        return Err(LineFault::Form);
    }
    Ok(Span { first, last })
}
