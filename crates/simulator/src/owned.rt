//! What the first processes are given, in one list.

ghost use Rattle.std.specs.Prelude.{◌≡◌, ◌++◌, ◌+◌, ◌≤◌, IfOk, OnOk, length, map, option_map};
ghost use Rattle.rights.specs.Views.{side_seen};
ghost use Rattle.fd_table.specs.Views.{entry_seen};
ghost use Rattle.task.specs.Views.{first_descriptor_of, first_object_of, starts_of};
ghost use Rattle.simulator.specs.OwnedViews.{owned_descriptor_of, owned_descriptors_of};
ghost use Rattle.simulator.specs.Starts.{owned_from, owned_by, is_on, last_owned};

use fd_table::{Entry, Side};
use rights::Memory;
use std::alloc::Global;
use task::{FirstDescriptor, FirstObject, Start};

/// A first descriptor, and the process whose it is.
#[derive(Clone, Copy)]
pub(crate) struct OwnedDescriptor {
    pub process: u8,
    pub given: FirstDescriptor,
}

/// Lists the first descriptors of a process.
fn list_own(
    owned: &mut Vec<OwnedDescriptor>,
    process: u8,
    descriptors: &[FirstDescriptor],
) -> Result<(), Memory>
    ensures { OnOk result (owned_descriptors_of owned.new.items ≡ owned_descriptors_of owned.old.items ++ owned_by process (map first_descriptor_of descriptors.now)) }
{
    for given in descriptors {
        owned.push(OwnedDescriptor {
            process,
            given: *given,
        })?;
    }
    Ok(())
}

/// Lists those of all processes from this one on.
fn list_from(owned: &mut Vec<OwnedDescriptor>, process: u8, starts: &[Start]) -> Result<(), Memory>
    requires few { process + length starts.now ≤ 16 }
    ensures { OnOk result (owned_descriptors_of owned.new.items ≡ owned_descriptors_of owned.old.items ++ owned_from process (starts_of starts.now)) }
{
    match starts {
        [] => Ok(()),
        [first, rest @ ..] => {
            list_own(owned, process, &first.descriptors)?;
            list_from(owned, process + 1, rest)
        }
    }
}

/// The first descriptors of all processes, in the order of the task.
pub(crate) fn list_owned(alloc: Global, starts: &[Start]) -> Result<Vec<OwnedDescriptor>, Memory>
    requires few { length starts.now ≤ 16 }
    ensures { IfOk result (λ owned. owned_descriptors_of owned.items ≡ owned_from 0 (starts_of starts.now)) }
{
    let mut owned = Vec::new(alloc);
    list_from(&mut owned, 0, starts)?;
    Ok(owned)
}

/// Whether it is of that side of that initial pair.
fn is_on(object: FirstObject, pair: u8, side: Side) -> bool
    ensures { result ≡ is_on pair (side_seen side) (first_object_of object) }
{
    match object {
        FirstObject::Node { .. } => false,
        FirstObject::End {
            pair: own,
            side: its,
        } => own == pair && its == side,
    }
}

/// Where the last of these is that is of that side of that initial pair.
#[tactic(auto, unfolding(crate::specs::Starts::last_owned))]
pub(crate) fn last_of(owned: &[OwnedDescriptor], pair: u8, side: Side) -> Option<Entry>
    ensures { option_map entry_seen result ≡ last_owned pair (side_seen side) (owned_descriptors_of owned.now) }
{
    match owned {
        [] => None,
        [first, rest @ ..] => match last_of(rest, pair, side) {
            Some(entry) => Some(entry),
            None => {
                if is_on(first.given.object, pair, side) {
                    return Some(Entry {
                        process: first.process,
                        number: first.given.number,
                    });
                }
                None
            }
        },
    }
}
