//! Numbers of a record, and those of a task that stand for them.

ghost use Rattle.std.specs.Prelude.{◌≡◌, ◌++◌, ◌∷◌, [], IfOk, OnOk, Some, map};
ghost use Rattle.std.specs.List.{list_all};
ghost use Rattle.task.specs.Views.{starts_of};
ghost use Rattle.follow.specs.Numbers.{are_apart, child_mappings, first_mappings, given_mappings, is_injection, is_number, is_of, is_recorded, model_of, named, mapping};
ghost use Rattle.follow.specs.Views.{mapping_of, mappings_seen, pair_of, pairs_of};
ghost use Rattle.task.specs.Views.{first_descriptor_of};

use rights::Memory;
use std::alloc::Global;
use task::{FirstDescriptor, Start};

/// A process of the record, and the number of the process of the task that stands for it.
#[derive(Clone, Copy)]
pub struct ProcessPair {
    pub real: u32,
    pub model: u8,
}

/// From here on this number of a process of the task stands for a number of the recorded process, or none does.
#[derive(Clone, Copy)]
pub(crate) struct FdMapping {
    pub process: usize,
    pub real: u32,
    pub model: Option<u32>,
}

/// The process that stands for one of the record.
pub(crate) fn model_of(pairs: &[ProcessPair], real: u32) -> Option<u8>
    ensures { result ≡ model_of (pairs_of pairs.now) real }
{
    match pairs {
        [] => None,
        [pair, pairs @ ..] => {
            if pair.real == real {
                Some(pair.model)
            } else {
                model_of(pairs, real)
            }
        }
    }
}

/// Whether it is this process that stands for one of the record.
pub(crate) fn is_process(pairs: &[ProcessPair], real: u32, model: usize) -> bool
    ensures { result ≡ is_number (model_of (pairs_of pairs.now) real) model }
{
    match model_of(pairs, real) {
        None => false,
        Some(own) => usize::from(own) == model,
    }
}

/// Whether a process stands for one of the record.
pub(crate) fn is_recorded(pairs: &[ProcessPair], model: usize) -> bool
    ensures { result ≡ is_recorded (pairs_of pairs.now) model }
{
    match pairs {
        [] => false,
        [pair, pairs @ ..] => usize::from(pair.model) == model || is_recorded(pairs, model),
    }
}

/// Whether a pair has neither process in common with any of these.
fn is_apart(pair: ProcessPair, pairs: &[ProcessPair]) -> bool
    ensures { result ≡ list_all (are_apart (pair_of pair)) (pairs_of pairs.now) }
{
    match pairs {
        [] => true,
        [other, pairs @ ..] => {
            pair.real != other.real && pair.model != other.model && is_apart(pair, pairs)
        }
    }
}

/// Whether no process stands for two, and none has two that stand for it.
pub(crate) fn is_injection(pairs: &[ProcessPair]) -> bool
    ensures { result ≡ is_injection (pairs_of pairs.now) }
{
    match pairs {
        [] => true,
        [pair, pairs @ ..] => is_apart(*pair, pairs) && is_injection(pairs),
    }
}

/// What stands for a number of a recorded process, if anything does.
pub(crate) fn named(mappings: &[FdMapping], process: usize, real: u32) -> Option<u32>
    ensures { result ≡ named (mappings_seen mappings.now) process real }
{
    let mut model = None;
    for mapping in mappings {
        if mapping.process == process && mapping.real == real {
            model = mapping.model;
        }
    }
    model
}

/// Whether it is this number.
pub(crate) fn is_number(number: Option<u32>, other: u32) -> bool
    ensures { result ≡ is_number number other }
{
    match number {
        None => false,
        Some(number) => number == other,
    }
}

/// A first descriptor of a process stands for that of the same number.
fn given_mapping(process: usize, given: &FirstDescriptor) -> FdMapping
    ensures { mapping_of result ≡ mapping process (first_descriptor_of given.now).number (Some (first_descriptor_of given.now).number) }
{
    let number = u32::from(given.number);
    FdMapping {
        process,
        real: number,
        model: Some(number),
    }
}

/// Adds that first descriptors of a process stand for those of the same numbers.
fn add_given(
    mappings: &mut Vec<FdMapping>,
    process: usize,
    descriptors: &[FirstDescriptor],
) -> Result<(), Memory>
    ensures { OnOk result (mappings_seen mappings.new.items ≡ mappings_seen mappings.old.items ++ given_mappings process (map first_descriptor_of descriptors.now)) }
{
    for given in descriptors {
        let mapping = given_mapping(process, given);
        mappings.push(mapping)?;
    }
    Ok(())
}

/// Adds that the first descriptors of all processes stand for those of the same numbers.
pub(crate) fn add_first(mappings: &mut Vec<FdMapping>, starts: &[Start]) -> Result<(), Memory>
    ensures { OnOk result (mappings_seen mappings.new.items ≡ mappings_seen mappings.old.items ++ first_mappings 0 (starts_of starts.now)) }
{
    for (process, start) in starts.iter().enumerate() {
        add_given(mappings, process, &start.descriptors)?;
    }
    Ok(())
}

/// The numbers of a parent, as those of its child.
fn child_mappings(
    alloc: Global,
    mappings: &[FdMapping],
    parent: usize,
    child: usize,
) -> Result<Vec<FdMapping>, Memory>
    ensures { IfOk result (λ added. mappings_seen added.items ≡ child_mappings (mappings_seen mappings.now) parent child) }
{
    let mut added = Vec::new(alloc);
    for mapping in mappings {
        if mapping.process == parent {
            added.push(FdMapping {
                process: child,
                ..*mapping
            })?;
        }
    }
    Ok(added)
}

/// Adds that a child has the numbers of its parent.
pub(crate) fn add_child(
    alloc: Global,
    mappings: &mut Vec<FdMapping>,
    parent: usize,
    child: usize,
) -> Result<(), Memory>
    ensures { OnOk result (mappings_seen mappings.new.items
        ≡ mappings_seen mappings.old.items ++ child_mappings (mappings_seen mappings.old.items) parent child) }
{
    let added = child_mappings(alloc, mappings, parent, child)?;
    mappings.extend_from_slice(&added)?;
    Ok(())
}
