//! What of a state its programs may ask: files' contents, and registers.

use crate::live_registers::LiveRegisters;
use call_facts::{NameChange, first_path, name_change, opening_flags};
use file_tree::Kind;
use instruction_set::Instruction;
use lookup::last_name;
use rights::Memory;
use std::alloc::Global;
use task::{FirstObject, Grant, Task, node_text, none_marked};

/// What a task's programs may ask of a state.
#[derive(Drop)]
pub(crate) struct Readable<'a> {
    /// The last names of the files that they may read. What others contain, none can ask.
    names: Vec<&'a [u8]>,
    /// Names may change or lead elsewhere, so that any file may be read.
    any: bool,
    /// The policy, where attackers are to be measured by it.
    pub policy: &'a [Grant],
    /// The registers that they may look at.
    pub registers: LiveRegisters,
}

impl<'a> Readable<'a> {
    /// What the programs of a task may read.
    pub(crate) fn new(alloc: Global, task: &'a Task) -> Result<Readable<'a>, Memory> {
        let mut names = Vec::new(alloc);
        let mut any = false;
        for node in task.nodes() {
            any = any || matches!(node.kind, Kind::Link);
        }
        for named in task.programs() {
            // (an attacker reads and moves what it likes)
            any = any || named.untrusted;
            for instruction in named.program.code() {
                let Instruction::Invoke { call, .. } = instruction else {
                    continue;
                };
                any = any || name_change(call.call()) == NameChange::Moved;
                if let (Some(path), Some(flags)) = (first_path(call), opening_flags(call)) {
                    if flags.read() && !path.ends_with(b"/") {
                        names.push(last_name(path))?;
                    }
                }
            }
        }
        for start in task.starts() {
            for descriptor in &start.descriptors {
                if let FirstObject::Node { node, .. } = descriptor.object {
                    names.push(last_name(node_text(task.nodes(), node)))?;
                }
            }
        }
        let policy = if none_marked(task.programs()) {
            &[]
        } else {
            task.grants()
        };
        Ok(Readable {
            names,
            any,
            policy,
            registers: LiveRegisters::new(alloc, task)?,
        })
    }

    /// Whether a file at this place may be read.
    pub(crate) fn holds(&self, place: &[u8]) -> bool {
        self.any || self.names.contains(&last_name(place))
    }
}
