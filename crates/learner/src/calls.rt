//! What a call of a record was given and came to.

use call_facts::{
    NameChange, Passed, Role, Scope, TableChange, name_change, passed_by, roles_of, scope_of,
    table_change,
};
use records::{Binding, MadeCall, Operand, Outcome, RecordedEnd};
use rights::{Call, Errno, OpenFlags};

/// The number that stands for the directory of a path from the root, which no process has.
pub(crate) const ROOT: u32 = u32::MAX;

/// The number that a call was given in a place.
pub(crate) fn number_at(made: &MadeCall, at: usize) -> Option<u32> {
    match made.operands.get(at) {
        Some(Operand::Number(number)) => Some(*number),
        _ => None,
    }
}

/// The path that a call was given in a place.
pub(crate) fn path_at(made: &MadeCall, at: usize) -> Option<&[u8]> {
    match made.operands.get(at) {
        Some(Operand::Path(path)) => Some(path.as_slice()),
        _ => None,
    }
}

/// What a call gave, if it succeeded.
pub(crate) fn answer_of(made: &MadeCall) -> Option<u32> {
    match made.outcome {
        Outcome::Success(answer) => Some(answer),
        Outcome::Failure(_) => None,
    }
}

/// Whether a call failed with this error.
pub(crate) fn fails_with(made: &MadeCall, error: Errno) -> bool {
    match made.outcome {
        Outcome::Success(_) => false,
        Outcome::Failure(own) => own == error,
    }
}

/// The place that a descriptor of a call is of, as the record tells it.
pub(crate) fn place_of(made: &MadeCall, number: u32) -> Option<&[u8]> {
    for binding in &made.bindings {
        if let Binding::Place { descriptor, place } = binding {
            if *descriptor == number {
                return Some(place.as_slice());
            }
        }
    }
    None
}

/// The number of the second end of a pair that a call made, and the pair.
pub(crate) fn second_end(made: &MadeCall, answer: u32) -> Option<(u32, u32)> {
    for binding in &made.bindings {
        if let Binding::End {
            descriptor,
            pair,
            ..
        } = binding
        {
            if *descriptor != answer {
                return Some((*descriptor, *pair));
            }
        }
    }
    None
}

/// How a call opens a file; of one that opens none, flags that nothing looks at.
pub(crate) fn flags_of(made: &MadeCall) -> OpenFlags {
    for operand in &made.operands {
        if let Operand::Flags(flags) = operand {
            return *flags;
        }
    }
    OpenFlags::unused()
}

/// Whether a file that isn't there is made by an open.
pub(crate) fn creates(made: &MadeCall) -> bool {
    flags_of(made).create()
}

/// Whether a call makes, moves or removes a name.
pub(crate) fn changes_names(made: &MadeCall) -> bool {
    match name_change(made.call) {
        NameChange::Stays => false,
        NameChange::Created => creates(made),
        NameChange::Made | NameChange::Removed | NameChange::Moved => true,
    }
}

/// Whether a call makes a directory, or a file that isn't there.
pub(crate) fn makes_name(made: &MadeCall) -> bool {
    name_change(made.call) == NameChange::Made || creates(made)
}

/// Whether what is removed is a directory.
pub(crate) fn removes_directory(made: &MadeCall) -> bool {
    matches!(made.operands.last(), Some(Operand::Directory(true)))
}

/// Whether a call has a descriptor as the operand of a place.
pub(crate) fn is_descriptor(call: Call, at: usize) -> bool {
    roles_of(call).get(at) == Some(&Role::Descriptor)
}

/// Where the operand of a call stands that is for this, behind so many others that are.
fn role_place(call: Call, role: Role, others: usize) -> Option<usize> {
    let mut left = others;
    for (at, own) in roles_of(call).iter().enumerate() {
        if *own == role {
            if left == 0 {
                return Some(at);
            }
            left -= 1;
        }
    }
    None
}

/// Where the path of a call stands among its operands: behind its directory, if it has one.
pub(crate) fn path_place(call: Call) -> Option<usize> {
    role_place(call, Role::Path, 0)
}

/// Where the second path of a call stands.
pub(crate) fn second_path_place(call: Call) -> Option<usize> {
    role_place(call, Role::Path, 1)
}

/// Where the second descriptor of a call stands.
pub(crate) fn second_place(call: Call) -> Option<usize> {
    role_place(call, Role::Descriptor, 1)
}

/// The path that a call is given, behind its directory if it has one.
pub(crate) fn path_of(made: &MadeCall) -> Option<&[u8]> {
    match path_place(made.call) {
        Some(at) => path_at(made, at),
        None => None,
    }
}

/// The end that a call goes through.
pub(crate) fn end_through(made: &MadeCall) -> Option<RecordedEnd> {
    match number_at(made, 0) {
        Some(number) => made.end_of(number),
        None => None,
    }
}

/// The place that the descriptor is of which a call gave.
pub(crate) fn place_given(made: &MadeCall) -> Option<&[u8]> {
    match answer_of(made) {
        Some(answer) => place_of(made, answer),
        None => None,
    }
}

/// Whether a call opens what stands at a path.
pub(crate) fn opens(call: Call) -> bool {
    match table_change(call) {
        TableChange::Opened | TableChange::Inherited => true,
        TableChange::Copied | TableChange::Received | TableChange::Pair => false,
        TableChange::Child | TableChange::Freed => false,
        TableChange::Limited | TableChange::Unchanged => false,
    }
}

/// Whether a call makes a descriptor.
pub(crate) fn makes_descriptor(call: Call) -> bool {
    match table_change(call) {
        TableChange::Opened | TableChange::Inherited | TableChange::Copied => true,
        TableChange::Received | TableChange::Pair => true,
        TableChange::Child | TableChange::Freed => false,
        TableChange::Limited | TableChange::Unchanged => false,
    }
}

/// Whether a call sends a descriptor.
pub(crate) fn sends_descriptor(call: Call) -> bool {
    passed_by(call) == Passed::DescriptorOut
}

/// Whether a call works on nodes alone, so that a socket isn't what it goes by.
pub(crate) fn wants_node(call: Call) -> bool {
    scope_of(call) == Scope::Node
}
