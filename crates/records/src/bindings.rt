//! What the words behind a call's outcome say of its descriptors and its bytes.

ghost use Rattle.std.specs.Prelude.{◌≡◌, option_map};
ghost use Rattle.rights.specs.Views.{side_seen};
ghost use Rattle.records.specs.BindingViews.{Steps, awaited_seen, bound_seen};
ghost use Rattle.records.specs.ReadingViews.{Reads};
ghost use Rattle.records.specs.Readings.{Next, What, bindings_of, end_side_of_word, binding_step};

use crate::entries::Binding;
use crate::faults::LineFault;
use crate::quoting::unquoted;
use crate::strace_texts::same_bytes;
use crate::taking::Rest;
use crate::words::number;
use rights::Side;
use std::alloc::Global;

/// What is awaited next.
#[derive(Clone, Copy)]
enum Awaited {
    /// A binding, or the amount of bytes.
    Next,
    /// What this descriptor is.
    What(u32),
    /// The pair of this descriptor.
    Pair(u32),
    /// The side of the pair.
    Side(u32, u32),
    /// The amount of bytes.
    Amount,
    /// Nothing more: the amount is this.
    Nothing(u32),
}

/// What a word does.
#[derive(Drop)]
enum Step {
    Awaits(Awaited),
    Binds(Binding),
}

/// What descriptors are, and how many bytes went through.
#[derive(Drop)]
pub(crate) struct Bound {
    pub bindings: Vec<Binding>,
    pub bytes: Option<u32>,
}

/// The side of a pair.
fn side_of(word: &[u8]) -> Result<Side, LineFault>
    ensures { Reads side_seen result (end_side_of_word word.now) }
{
    if same_bytes(word, b"a") {
        Ok(Side::A)
    } else if same_bytes(word, b"b") {
        Ok(Side::B)
    } else {
        Err(LineFault::Form)
    }
}

/// What a word does where a binding may begin: a descriptor stands behind `@`.
#[tactic(auto, unfolding(crate::specs::Readings::binding_step))]
fn next_step(word: &[u8]) -> Result<Step, LineFault>
    ensures { Steps result (binding_step Next word.now) }
{
    match word {
        [b'@', digits @ ..] => Ok(Step::Awaits(Awaited::What(number(digits)?))),
        _ if same_bytes(word, b"bytes") => Ok(Step::Awaits(Awaited::Amount)),
        _ => Err(LineFault::Form),
    }
}

/// What a word does that says what this descriptor is.
#[tactic(auto, unfolding(crate::specs::Readings::binding_step))]
fn what_step(alloc: Global, descriptor: u32, word: &[u8]) -> Result<Step, LineFault>
    ensures { Steps result (binding_step (What descriptor) word.now) }
{
    if same_bytes(word, b"sock") {
        return Ok(Step::Awaits(Awaited::Pair(descriptor)));
    }
    let place = unquoted(alloc, word)?;
    Ok(Step::Binds(Binding::Place { descriptor, place }))
}

/// What the next word does.
#[tactic(auto, unfolding(crate::specs::Readings::binding_step))]
fn step_of(alloc: Global, awaited: Awaited, word: &[u8]) -> Result<Step, LineFault>
    ensures { Steps result (binding_step (awaited_seen awaited) word.now) }
{
    match awaited {
        Awaited::Next => next_step(word),
        Awaited::What(descriptor) => what_step(alloc, descriptor, word),
        Awaited::Pair(descriptor) => Ok(Step::Awaits(Awaited::Side(descriptor, number(word)?))),
        Awaited::Side(descriptor, pair) => Ok(Step::Binds(Binding::End {
            descriptor,
            pair,
            side: side_of(word)?,
        })),
        Awaited::Amount => Ok(Step::Awaits(Awaited::Nothing(number(word)?))),
        Awaited::Nothing(_) => Err(LineFault::Form),
    }
}

/// What all the words say that are left of a line.
#[tactic(auto, unfolding(crate::specs::Readings::bindings_of))]
pub(crate) fn read_bindings(alloc: Global, mut words: Rest<'_>) -> Result<Bound, LineFault>
    ensures { Reads bound_seen result (bindings_of words.entry) }
{
    let mut bindings = Vec::new(alloc);
    let mut awaited = Awaited::Next;
    while let Some(word) = words.take() {
        match step_of(alloc, awaited, word)? {
            Step::Awaits(next) => awaited = next,
            Step::Binds(binding) => {
                bindings.push(binding)?;
                awaited = Awaited::Next;
            }
        }
    }
    match awaited {
        Awaited::Next => Ok(Bound {
            bindings,
            bytes: None,
        }),
        Awaited::Nothing(bytes) => Ok(Bound {
            bindings,
            bytes: Some(bytes),
        }),
        _ => Err(LineFault::Form),
    }
}
