//! A task: the tree, the policy, the programs, and the first processes with their descriptors.

use crate::grants::Grant;
use crate::nodes::TaskNode;
use crate::programs::NamedProgram;
use crate::starts::Start;
use std::marker::Model;

/// A task, valid by construction: its nodes are a tree within the limits, its up to 8 grants are of directories apart from
/// each other, its up to 8 programs are valid, names are words that are given once, and its 1 to 16 first processes have
/// descriptors on files, directories and sides of 32 socket pairs, each at a number of its own from 0 to 15. A clause sees the
/// plan of its parts. (own)
#[derive(Drop)]
pub struct Task {
    nodes: Vec<TaskNode>,
    grants: Vec<Grant>,
    programs: Vec<NamedProgram>,
    starts: Vec<Start>,
    further_rights: bool,
}

impl Model for Task {
    ghost use Rattle.std.specs.Prelude.{◌≡◌, true};
    ghost use Rattle.task.specs.Plans.{Plan, plan_in};
    ghost use Rattle.task.specs.Limits.{is_plan};

    ghost Value = { Plan };

    ghost use Rattle.task.specs.Views.{grants_of, nodes_of, programs_of, starts_of};

    ghost view = { λ t. plan_in t.further_rights (nodes_of t.nodes.items) (grants_of t.grants.items) (programs_of t.programs.items) (starts_of t.starts.items) };

    ghost invariant = { λ t. is_plan (plan_in t.further_rights (nodes_of t.nodes.items) (grants_of t.grants.items) (programs_of t.programs.items) (starts_of t.starts.items)) ≡ true };
}

impl Task {
    ghost use Rattle.std.specs.Prelude.{◌≡◌, true};
    ghost use Rattle.task.specs.Plans.{plan_in, program_name};
    ghost use Rattle.task.specs.Limits.{is_plan};
    ghost use Rattle.task.specs.Views.{grants_of, nodes_of, programs_of, starts_of};

    /// The task of these parts, which its caller knows to be valid.
    pub fn new(
        nodes: Vec<TaskNode>,
        grants: Vec<Grant>,
        programs: Vec<NamedProgram>,
        starts: Vec<Start>,
        further_rights: bool,
    ) -> Task
        requires { is_plan (plan_in further_rights (nodes_of nodes.items) (grants_of grants.items)
            (programs_of programs.items) (starts_of starts.items)) ≡ true }
        ensures { result ≡ plan_in further_rights (nodes_of nodes.items) (grants_of grants.items)
            (programs_of programs.items) (starts_of starts.items) }
    {
        Task {
            nodes,
            grants,
            programs,
            starts,
            further_rights,
        }
    }

    /// The nodes of the tree in the order of making, the root first.
    pub fn nodes(&self) -> &[TaskNode]
        ensures nodes { nodes_of result.now ≡ self.now.nodes }
        ensures valid { is_plan self.now ≡ true }
    {
        &self.nodes
    }

    /// The policy.
    pub fn grants(&self) -> &[Grant]
        ensures { grants_of result.now ≡ self.now.grants }
    {
        &self.grants
    }

    /// The programs, by their place in the task.
    pub fn programs(&self) -> &[NamedProgram]
        ensures programs { programs_of result.now ≡ self.now.programs }
        ensures valid { is_plan self.now ≡ true }
    {
        &self.programs
    }

    /// The name of a program, by its place in the task; no bytes for one that isn't there.
    pub fn program_name(&self, program: u8) -> &[u8]
        ensures { result.now ≡ program_name self.now program }
    {
        match self.programs.get(program as usize) {
            None => b"",
            Some(named) => named.name.as_bytes(),
        }
    }

    /// The first processes, by number.
    pub fn starts(&self) -> &[Start]
        ensures starts { starts_of result.now ≡ self.now.starts }
        ensures valid { is_plan self.now ≡ true }
    {
        &self.starts
    }

    /// Whether it asks for further rights: its descriptors and limits may name them, and its programs may `use` them.
    pub fn further_rights(&self) -> bool
        ensures { result ≡ self.now.wide }
    {
        self.further_rights
    }
}
